// The word of a cell: document 02, Note 2. Cells with as many vertices are compared by their words: the one that stands first has the lesser, and
// only equal cells share one.
ghost use Rattle.std.specs.Prelude.{◌≡◌, [], ◌∷◌, ◌^◌, ◌≤◌, ◌<◌};
ghost use Rattle.complexes.specs.Complex.{vertex_bound};
ghost use Rattle.complexes.specs.Packed.{word_vertices, packed};
ghost use Rattle.sheet_format.specs.Check.{cell_of};
ghost use Rattle.cells.specs.Word.{Packs, LeavesOut};

use fields::field::{field, field_within};

// A word has room for this many vertices, each in VERTEX_BITS bits.
const WORD_VERTICES: usize = 4;

const VERTEX_BITS: usize = 16;

// Vertex numbers are below this.
const VERTEX_BOUND: u64 = 1 << VERTEX_BITS;

// VERTEX_BOUND to the power n.
pub fn power(n: usize) -> u64
    requires { n < word_vertices }
    ensures { result ≡ vertex_bound ^ n }
{
    1 << (VERTEX_BITS * n)
}

// The word of four vertices, the first in the highest bits.
fn join(a: usize, b: usize, c: usize, d: usize) -> u64
    requires { (a < vertex_bound) × (b < vertex_bound) × (c < vertex_bound) × (d < vertex_bound) }
    ensures { result ≡ packed (a ∷ b ∷ c ∷ d ∷ []) }
{
    ((a as u64 * VERTEX_BOUND + b as u64) * VERTEX_BOUND + c as u64) * VERTEX_BOUND + d as u64
}

// The word of the four vertices from byte `at` on. Where all lie within the slice, one test is made for them.
fn pack_four(s: &[u8], at: usize) -> u64
    requires { at < 2 ^ 32 }
    ensures { result ≡ packed (cell_of s.now word_vertices at) }
{
    if at + 2 * WORD_VERTICES <= s.len() {
        join(
            field_within(s, at),
            field_within(s, at + 2),
            field_within(s, at + 4),
            field_within(s, at + 6),
        )
    } else {
        join(
            field(s, at),
            field(s, at + 2),
            field(s, at + 4),
            field(s, at + 6),
        )
    }
}

// The word of the cell of n vertices at byte `at`: the first in the highest of the n × VERTEX_BITS lowest bits.
pub fn pack(s: &[u8], at: usize, n: usize) -> u64
    requires { (at < 2 ^ 32) × (0 < n) × (n ≤ word_vertices) }
    ensures { Packs n (cell_of s.now n at) result }
{
    pack_four(s, at) / power(WORD_VERTICES - n)
}

// The word of a face: that of the cell, less the vertex that `behind` vertices stand behind.
pub fn leave_out(word: u64, behind: usize) -> u64
    requires { behind < word_vertices }
    ensures { LeavesOut behind word result }
{
    let base = power(behind);
    word / base / VERTEX_BOUND * base + word % base
}
