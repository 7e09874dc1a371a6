// What steps c, d and e look for after a pass.
ghost use Rattle.std.specs.Prelude.{◌≡◌, pos, ◌<ℤ◌, suc, ◌+◌, ◌-◌, ◌<◌, ◌≤◌, length};
ghost use Rattle.reduction_steps.specs.Step.{column_keeps, row_keeps, row_indivisible, first_indivisible};
ghost use Rattle.matrix_lines.specs.Slice.{Small};
ghost use Rattle.matrix_lines.specs.Matrices.{Held, contents};
ghost use Rattle.scans.specs.Scan.{ColumnReduced, indivisible_row};

use matrix_lines::matrix::Matrix;
use matrix_lines::zero::first_nonzero;

// Step c: whether column k keeps a nonzero entry below row k, each of which is a remainder by the pivot. By 1 all remainders are 0.
pub fn column_keeps(m: Matrix, w: &[i32], k: usize) -> bool
    requires held { Held (length w.now) m }
    requires k_lt_lines { (k < m.lines) × (k < m.width) × ColumnReduced (contents m w.now) k m.lines }
    ensures { result ≡ column_keeps (contents m w.now) k (m.lines - suc k) (suc k) }
{
    if m.entry(w, k, k) == 1 {
        return false;
    }
    (k + 1..m.lines).any(|i| m.entry(w, i, k) != 0)
}

// Step d: whether row k keeps a nonzero entry to the right of column k.
pub fn row_keeps(m: Matrix, w: &[i32], k: usize) -> bool
    requires held { Held (length w.now) m × Small w.now }
    requires k_lt_lines { (k < m.lines) × (k < m.width) }
    ensures { result ≡ row_keeps (contents m w.now) k (m.width - suc k) (suc k) }
{
    first_nonzero(w, m.line(k), k + 1, m.width) < m.width
}

// Whether row i has an entry from column j on that is not divisible by d.
fn row_indivisible(m: Matrix, w: &[i32], d: i64, i: usize, from: usize) -> bool
    requires held { Held (length w.now) m }
    requires i_lt_lines { (i < m.lines) × (from ≤ m.width) × (pos 0 <ℤ d) }
    ensures { result ≡ row_indivisible (contents m w.now) d i (m.width - from) from }
{
    (from..m.width).any(|j| m.entry(w, i, j) % d != 0)
}

// Step e: the first row below row k with an entry to the right of column k that is not divisible by the pivot. A pivot of 1 divides all.
pub fn first_indivisible(m: Matrix, w: &[i32], k: usize) -> Option<usize>
    requires held { Held (length w.now) m }
    requires k_lt_lines { (k < m.lines) × (k < m.width) × (pos 0 <ℤ contents m w.now k k) }
    ensures { indivisible_row result ≡ first_indivisible (contents m w.now) (contents m w.now k k) (suc k)
        (m.width - suc k) (m.lines - suc k) (suc k) }
{
    let d = m.entry(w, k, k);
    if d == 1 {
        return None;
    }
    (k + 1..m.lines).find(|i| row_indivisible(m, w, d, *i, k + 1))
}
