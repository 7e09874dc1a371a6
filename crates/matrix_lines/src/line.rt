// Operations on lines: `width` consecutive entries of a slice from a place on. Each is a part of an operation on a matrix and its companions: it is
// handed the largest absolute value that the operation wrote before, 0 where it wrote nothing, and answers the largest after it. Where an entry that
// is to be written lies beyond the limit, the work ends there.
ghost use Rattle.std.specs.Prelude.{◌≡◌, ◌⊎◌, ◌+◌, ◌<◌, ◌≤◌, length, replicate, pos, nat_abs};
ghost use Rattle.matrix_lines.specs.Slice.{entry_limit, block, Bounded, Apart, Subtracted, LinesSwapped, Negated};

use crate::matrix::Matrix;
use crate::zero::{BLOCK, is_same_block, is_zero_block};

// An entry would lie beyond the limit. An operation that writes none such answers the largest absolute value that it wrote.
#[derive(Clone, Copy, Debug, PartialEq, Eq)]
pub struct TooWide;

// Takes q times the line at `source` from the line at `target`, place by place.
pub fn subtract_places(
    w: &mut [i32],
    target: usize,
    source: usize,
    width: usize,
    q: i64,
    before: u64,
) -> Result<u64, TooWide>
    requires width_in_bounds { (target + width ≤ length w.old) × (source + width ≤ length w.old) }
    requires apart { Apart target source width }
    requires bounded { Bounded before w.old }
    requires q_bound { nat_abs q ≤ entry_limit }
    ensures { Subtracted w.old target source width q before result w.new }
{
    let mut largest = before;
    for t in 0..width {
        let x = w[target + t] as i64;
        let y = w[source + t] as i64;
        let v = x - q * y;
        let size = v.unsigned_abs();
        if largest < size {
            if (Matrix::ENTRY_LIMIT as u64) < size {
                return Err(TooWide);
            }
            largest = size;
        }
        w[target + t] = v as i32;
    }
    Ok(largest)
}

// The same for one block: where the source is 0 the target keeps its entries.
fn subtract_block(
    w: &mut [i32],
    target: usize,
    source: usize,
    q: i64,
    before: u64,
) -> Result<u64, TooWide>
    requires block_in_bounds { (target + block ≤ length w.old) × (source + block ≤ length w.old) }
    requires apart { Apart target source block }
    requires bounded { Bounded before w.old }
    requires q_bound { nat_abs q ≤ entry_limit }
    ensures { Subtracted w.old target source block q before result w.new }
{
    if is_zero_block(w, source) {
        return Ok(before);
    }
    subtract_places(w, target, source, BLOCK, q, before)
}

// Takes q times the line at `source` from the line at `target`, block by block.
pub fn subtract(
    w: &mut [i32],
    target: usize,
    source: usize,
    width: usize,
    q: i64,
    before: u64,
) -> Result<u64, TooWide>
    requires width_in_bounds { (target + width ≤ length w.old) × (source + width ≤ length w.old) }
    requires apart { Apart target source width }
    requires bounded { Bounded before w.old }
    requires q_bound { nat_abs q ≤ entry_limit }
    ensures { Subtracted w.old target source width q before result w.new }
{
    let mut largest = before;
    let blocks = width / BLOCK;
    for b in 0..blocks {
        let t = b * BLOCK;
        largest = subtract_block(w, target + t, source + t, q, largest)?;
    }
    let whole = blocks * BLOCK;
    subtract_places(w, target + whole, source + whole, width - whole, q, largest)
}

// Exchanges the entries at a and b. Where they are equal nothing is written; else two stores take less time than the library's `swap`.
pub fn swap_entries(w: &mut [i32], a: usize, b: usize, before: u64) -> u64
    requires a_in_bounds { (a < length w.old) × (b < length w.old) }
    requires bounded { Bounded before w.old }
    ensures { LinesSwapped w.old a b 1 before result w.new }
{
    let x = w[a];
    let y = w[b];
    if x == y {
        return before;
    }
    w[a] = y;
    w[b] = x;
    before.max(u64::from(x.unsigned_abs().max(y.unsigned_abs())))
}

// Exchanges the lines at `first` and `second`, which are one line or apart, place by place.
pub fn swap_places(w: &mut [i32], first: usize, second: usize, width: usize, before: u64) -> u64
    requires width_in_bounds { (first + width ≤ length w.old) × (second + width ≤ length w.old) }
    requires fact { (first ≡ second) ⊎ Apart first second width }
    requires bounded { Bounded before w.old }
    ensures { LinesSwapped w.old first second width before result w.new }
{
    let mut largest = before;
    for t in 0..width {
        let x = w[first + t];
        let y = w[second + t];
        w[first + t] = y;
        w[second + t] = x;
        largest = largest.max(u64::from(x.unsigned_abs().max(y.unsigned_abs())));
    }
    largest
}

// The same for one block: two blocks that are equal stay as they are.
fn swap_block(w: &mut [i32], first: usize, second: usize, before: u64) -> u64
    requires block_in_bounds { (first + block ≤ length w.old) × (second + block ≤ length w.old) }
    requires fact { (first ≡ second) ⊎ Apart first second block }
    requires bounded { Bounded before w.old }
    ensures { LinesSwapped w.old first second block before result w.new }
{
    if is_same_block(w, first, second) {
        return before;
    }
    swap_places(w, first, second, BLOCK, before)
}

// Exchanges the lines at `first` and `second`, which are one line or apart, block by block.
pub fn swap(w: &mut [i32], first: usize, second: usize, width: usize, before: u64) -> u64
    requires width_in_bounds { (first + width ≤ length w.old) × (second + width ≤ length w.old) }
    requires fact { (first ≡ second) ⊎ Apart first second width }
    requires bounded { Bounded before w.old }
    ensures { LinesSwapped w.old first second width before result w.new }
{
    let mut largest = before;
    let blocks = width / BLOCK;
    for b in 0..blocks {
        let t = b * BLOCK;
        largest = swap_block(w, first + t, second + t, largest);
    }
    let whole = blocks * BLOCK;
    swap_places(w, first + whole, second + whole, width - whole, largest)
}

// Negates the line at `at`, place by place.
pub fn negate_places(w: &mut [i32], at: usize, width: usize, before: u64) -> u64
    requires width_in_bounds { at + width ≤ length w.old }
    requires bounded { Bounded before w.old }
    ensures { Negated w.old at width before result w.new }
{
    let mut largest = before;
    for t in 0..width {
        let x = -w[at + t];
        w[at + t] = x;
        largest = largest.max(u64::from(x.unsigned_abs()));
    }
    largest
}

// The same for one block, which stays as it is where it is 0.
fn negate_block(w: &mut [i32], at: usize, before: u64) -> u64
    requires block_in_bounds { at + block ≤ length w.old }
    requires bounded { Bounded before w.old }
    ensures { Negated w.old at block before result w.new }
{
    if is_zero_block(w, at) {
        return before;
    }
    negate_places(w, at, BLOCK, before)
}

// Negates the line at `at`, block by block.
pub fn negate(w: &mut [i32], at: usize, width: usize, before: u64) -> u64
    requires width_in_bounds { at + width ≤ length w.old }
    requires bounded { Bounded before w.old }
    ensures { Negated w.old at width before result w.new }
{
    let mut largest = before;
    let blocks = width / BLOCK;
    for b in 0..blocks {
        let t = b * BLOCK;
        largest = negate_block(w, at + t, largest);
    }
    let whole = blocks * BLOCK;
    negate_places(w, at + whole, width - whole, largest)
}

// Sets every entry of the slice to 0.
pub fn clear(w: &mut [i32])
    ensures { w.new ≡ replicate (length w.old) (pos 0) }
{
    w.fill(0);
}
