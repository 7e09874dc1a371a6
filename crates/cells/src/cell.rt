// One cell of a sheet. A cell of n vertices stands at a byte of the sheet.
ghost use Rattle.std.specs.Prelude.{◌≡◌, ◌^◌, ◌<◌};
ghost use Rattle.complexes.specs.Cell as spec;
ghost use Rattle.sheet_format.specs.Check.{cell_of};

use fields::field::field;

// Whether the vertices of the cell of n vertices at byte `at` rise strictly.
pub fn rises(s: &[u8], at: usize, n: usize) -> bool
    requires { (at < 2 ^ 32) × (n < 2 ^ 16) }
    ensures { result ≡ spec.rises (cell_of s.now n at) }
{
    (1..n).all(|j| field(s, at + 2 * (j - 1)) < field(s, at + 2 * j))
}
