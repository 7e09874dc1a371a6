// The product of a matrix in the work slice and a boundary matrix, checked against the entry limit.
ghost use Rattle.std.specs.Prelude.{◌≡◌, ℕ, suc, ◌+◌, ◌<◌, ◌≤◌, length, get_or, ◌*ℤ◌};
ghost use Rattle.matrices.specs.Sum.{sum};
ghost use Rattle.matrices.specs.Matrix.{mul};
ghost use Rattle.complexes.specs.Complex.{count};
ghost use Rattle.complexes.specs.Boundary as spec;
ghost use Rattle.complexes.specs.Boundary.{boundary};
ghost use Rattle.sheet_format.specs.Layout.{top};
ghost use Rattle.sheet_format.specs.Check.{sections_of};
ghost use Rattle.integers.specs.Slot.{slot};
ghost use Rattle.matrix_lines.specs.Slice.{Small, Bounded};
ghost use Rattle.matrix_lines.specs.Matrices.{Held, contents, end, Became, everywhere};
ghost use Rattle.faces.specs.Face.{Accepted};
ghost use Rattle.boundaries.specs.Column.{at_places, ColumnBecame};

use cells::face::FACES;
use faces::face::{face_places, sign};
use matrix_lines::line::TooWide;
use matrix_lines::matrix::Matrix;

// The sum of sign t times the entry at places[t] of a line, over t below `faces`. The loop has a constant length, so that the compiler
// keeps the places in registers.
fn line_product(w: &[i32], line: usize, width: usize, places: [usize; FACES], faces: usize) -> i64
    requires width_in_bounds { (line + width ≤ length w.now) × Small w.now × (faces ≤ suc top) }
    requires by_index { (t : ℕ) → t < faces → get_or places t 0 < width }
    ensures { result ≡ sum faces (λ t. slot w.now (line + get_or places t 0) *ℤ spec.sign t) }
{
    let mut total = 0;
    for (t, &place) in places.iter().enumerate() {
        if t < faces {
            total += i64::from(w[line + place]) * sign(t);
        }
    }
    total
}

// Column j of the product: the lines of q times a column that has sign t at places[t], for t below `faces`, and 0 elsewhere. It is handed the largest
// absolute value of the columns before, and answers the largest with this one.
fn multiply_column(
    q: Matrix,
    m: Matrix,
    w: &mut [i32],
    j: usize,
    places: [usize; FACES],
    faces: usize,
    before: u64,
) -> Result<u64, TooWide>
    requires lines_value { (m.lines ≡ q.lines) × (j < m.width) × (faces ≤ suc top) }
    requires by_index { (t : ℕ) → t < faces → get_or places t 0 < q.width }
    requires held { Held (length w.old) q × (end m ≤ q.at) × Bounded before w.old }
    ensures { ColumnBecame m w.old (at_places q w.old places faces) j before result w.new }
{
    let mut largest = before;
    for i in 0..q.lines {
        let v = line_product(w, q.line(i), q.width, places, faces);
        let size = v.unsigned_abs();
        if largest < size {
            if (Matrix::ENTRY_LIMIT as u64) < size {
                return Err(TooWide);
            }
            largest = size;
        }
        w[m.line(i) + j] = v as i32;
    }
    Ok(largest)
}

// Makes of m the product of q and the boundary matrix of dimension p + 1. It answers the largest absolute value that it wrote.
pub fn multiply(s: &[u8], p: usize, q: Matrix, m: Matrix, w: &mut [i32]) -> Result<u64, TooWide>
    requires accepted { Accepted s.now }
    requires width_value { (q.width ≡ count (sections_of s.now) p) × (m.width ≡ count (sections_of s.now) (suc p)) × (m.lines ≡ q.lines) }
    requires held { Held (length w.old) q × (end m ≤ q.at) × Small w.old }
    ensures { Became m w.old everywhere
        (mul q.width (contents q w.old) (boundary (sections_of s.now) (suc p))) 0 result
        w.new }
{
    let mut places = [0usize; FACES];
    let mut largest = 0;
    for j in 0..m.width {
        face_places(s, p, j, &mut places);
        largest = multiply_column(q, m, w, j, places, p + 2, largest)?;
    }
    Ok(largest)
}
