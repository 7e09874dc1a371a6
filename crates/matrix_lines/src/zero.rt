// Zeros of a line, which is `width` consecutive entries of a slice from a place on, and blocks that are equal.
ghost use Rattle.std.specs.Prelude.{◌+◌, ◌≤◌, length};
ghost use Rattle.matrix_lines.specs.Slice.{block, Small, ZerosTold, SameTold, ZerosTo, FirstNonzero};

// How many places are tested for 0 at once.
pub const BLOCK: usize = 8;

// Whether the BLOCK entries from `at` on are 0. The loop has no way out before its end, so that the compiler tests several entries at once.
pub fn is_zero_block(w: &[i32], at: usize) -> bool
    requires { (at + block ≤ length w.now) × Small w.now }
    ensures { ZerosTold w.now at block result }
{
    let mut nonzero = false;
    for x in &w[at..at + BLOCK] {
        nonzero |= *x != 0;
    }
    !nonzero
}

// Whether the BLOCK entries from `first` on are those from `second` on. This loop has no way out either.
pub fn is_same_block(w: &[i32], first: usize, second: usize) -> bool
    requires { (first + block ≤ length w.now) × (second + block ≤ length w.now) × Small w.now }
    ensures { SameTold w.now first second block result }
{
    let mut differ = false;
    for t in 0..BLOCK {
        differ |= w[first + t] != w[second + t];
    }
    !differ
}

// A place from `from` on before which the line at `at` is 0, found block by block.
fn skip_zero_blocks(w: &[i32], at: usize, from: usize, width: usize) -> usize
    requires { (at + width ≤ length w.now) × (from ≤ width) × Small w.now }
    ensures { ZerosTo w.now at from width result }
{
    let blocks = (width - from) / BLOCK;
    for b in 0..blocks {
        let t = from + b * BLOCK;
        if !is_zero_block(w, at + t) {
            return t;
        }
    }
    from + blocks * BLOCK
}

// The first place from `from` on where the line at `at` is not 0, or its width.
pub fn first_nonzero(w: &[i32], at: usize, from: usize, width: usize) -> usize
    requires { (at + width ≤ length w.now) × (from ≤ width) × Small w.now }
    ensures { FirstNonzero w.now at from width result }
{
    for t in skip_zero_blocks(w, at, from, width)..width {
        if w[at + t] != 0 {
            return t;
        }
    }
    width
}
