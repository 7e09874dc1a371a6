// Boundary matrices and identities in a work slice that holds zeros there.
ghost use Rattle.std.specs.Prelude.{◌≡◌, ℕ, suc, ◌<◌, length};
ghost use Rattle.matrices.specs.Matrix.{Eq, identity, null};
ghost use Rattle.complexes.specs.Complex.{count};
ghost use Rattle.complexes.specs.Boundary.{boundary};
ghost use Rattle.sheet_format.specs.Layout.{top};
ghost use Rattle.sheet_format.specs.Check.{sections_of};
ghost use Rattle.matrix_lines.specs.Matrices.{Held, contents};
ghost use Rattle.faces.specs.Face.{Accepted};
ghost use Rattle.boundaries.specs.Filled.{MatrixFilled, ColumnFilled};

use cells::face::FACES;
use faces::face::{face_places, sign};
use matrix_lines::matrix::Matrix;

// Writes column j of the boundary matrix of dimension p + 1. The search for the faces of cell j starts at `places`, which become theirs.
fn fill_column(s: &[u8], p: usize, m: Matrix, w: &mut [i32], j: usize, places: &mut [usize; FACES])
    requires accepted { Accepted s.now × (p < top) }
    requires lines_value { (m.lines ≡ count (sections_of s.now) p) × (m.width ≡ count (sections_of s.now) (suc p)) × (j < m.width) }
    requires held { Held (length w.old) m }
    requires by_index { (i : ℕ) → i < m.lines → contents m w.old i j ≡ null i j }
    ensures { ColumnFilled m w.old (boundary (sections_of s.now) (suc p)) j w.new }
{
    face_places(s, p, j, places);
    for (t, &row) in places[..p + 2].iter().enumerate() {
        w[m.line(row) + j] = sign(t) as i32;
    }
}

// Writes the boundary matrix of dimension p + 1.
pub fn fill_boundary(s: &[u8], p: usize, m: Matrix, w: &mut [i32])
    requires accepted { Accepted s.now × (p < top) }
    requires lines_value { (m.lines ≡ count (sections_of s.now) p) × (m.width ≡ count (sections_of s.now) (suc p)) }
    requires held { Held (length w.old) m × Eq m.lines m.width (contents m w.old) null }
    ensures { MatrixFilled m w.old (boundary (sections_of s.now) (suc p)) w.new }
{
    let mut places = [0usize; FACES];
    for j in 0..m.width {
        fill_column(s, p, m, w, j, &mut places);
    }
}

// Writes the identity.
pub fn fill_identity(m: Matrix, w: &mut [i32])
    requires { Held (length w.old) m × (m.lines ≡ m.width) × Eq m.lines m.width (contents m w.old) null }
    ensures { MatrixFilled m w.old identity w.new }
{
    for i in 0..m.lines {
        w[m.line(i) + i] = 1;
    }
}
