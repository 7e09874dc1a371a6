// An elementary operation on a matrix in a slice: on its lines, or on the places of every line. It is handed the largest absolute value that was
// written before, and answers the largest after it, or that an entry would lie beyond the limit.
ghost use Rattle.std.specs.Prelude.{◌<◌, length, Ok};
ghost use Rattle.matrices.specs.Operation.{swap, negate};
ghost use Rattle.matrix_lines.specs.Slice.{Bounded};
ghost use Rattle.matrix_lines.specs.Matrices.{Held};
ghost use Rattle.elementary_operations.specs.Operations.{operation_of, Fits, Alone, OnLines, OnPlaces};

use crate::operation::Operation;
use matrix_lines::line;
use matrix_lines::line::TooWide;
use matrix_lines::matrix::Matrix;

// Does the operation to the lines, block by block.
fn on_wide_lines(m: Matrix, w: &mut [i32], op: Operation, before: u64) -> Result<u64, TooWide>
    requires held { Held (length w.old) m }
    requires bounded { Bounded before w.old }
    requires fits { Fits m.lines (operation_of op) }
    ensures { OnLines m w.old (operation_of op) before result w.new }
{
    match op {
        Operation::Subtract(i, k, q) => line::subtract(w, m.line(i), m.line(k), m.width, q, before),
        Operation::Swap(i, k) => Ok(line::swap(w, m.line(i), m.line(k), m.width, before)),
        Operation::Negate(k) => Ok(line::negate(w, m.line(k), m.width, before)),
    }
}

// Does the operation to the lines. Those of an absent companion are empty, and nothing is called.
pub fn on_lines(m: Matrix, w: &mut [i32], op: Operation, before: u64) -> Result<u64, TooWide>
    requires held { Held (length w.old) m }
    requires bounded { Bounded before w.old }
    requires fits { Fits m.lines (operation_of op) }
    ensures { OnLines m w.old (operation_of op) before result w.new }
{
    if m.width == 0 {
        return Ok(before);
    }
    on_wide_lines(m, w, op, before)
}

// Exchanges places j and k of every line.
fn swap_places(m: Matrix, w: &mut [i32], j: usize, k: usize, before: u64) -> u64
    requires held { Held (length w.old) m }
    requires bounded { Bounded before w.old }
    requires fits { Fits m.width (swap j k) }
    ensures { OnPlaces m w.old (swap j k) before (Ok result) w.new }
{
    let mut largest = before;
    for i in 0..m.lines {
        let at = m.line(i);
        largest = line::swap_entries(w, at + j, at + k, largest);
    }
    largest
}

// Negates place k of every line.
fn negate_places(m: Matrix, w: &mut [i32], k: usize, before: u64) -> u64
    requires held { Held (length w.old) m }
    requires bounded { Bounded before w.old }
    requires fits { Fits m.width (negate k) }
    ensures { OnPlaces m w.old (negate k) before (Ok result) w.new }
{
    let mut largest = before;
    for i in 0..m.lines {
        let at = m.line(i);
        largest = line::negate_places(w, at + k, 1, largest);
    }
    largest
}

// Does the operation to the places of every line. A subtraction of place k changes line k alone, which has the only nonzero entry there.
pub fn on_places(m: Matrix, w: &mut [i32], op: Operation, before: u64) -> Result<u64, TooWide>
    requires held { Held (length w.old) m }
    requires bounded { Bounded before w.old }
    requires fits { Fits m.width (operation_of op) × Alone m w.old (operation_of op) }
    ensures { OnPlaces m w.old (operation_of op) before result w.new }
{
    match op {
        Operation::Subtract(j, k, q) => {
            let at = m.line(k);
            line::subtract_places(w, at + j, at + k, 1, q, before)
        }
        Operation::Swap(j, k) => Ok(swap_places(m, w, j, k, before)),
        Operation::Negate(k) => Ok(negate_places(m, w, k, before)),
    }
}
