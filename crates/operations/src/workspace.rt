// The matrix of a reduction and its companions, in a lent slice, and the operations on them. A companion that is absent has lines of length 0.
ghost use Rattle.std.specs.Prelude.{◌<◌, length};
ghost use Rattle.matrices.specs.Operation.{swap, inverse as undoing};
ghost use Rattle.matrix_lines.specs.Slice.{Small, Bounded};
ghost use Rattle.elementary_operations.specs.Operations.{operation_of, Fits, Alone};
ghost use Rattle.matrix_lines.specs.Matrices.{Held};
ghost use Rattle.operations.specs.Laid.{Laid, RowsOperated, ColumnsOperated, Followed};

use elementary_operations::apply::{on_lines, on_places};
use elementary_operations::operation::Operation;
use matrix_lines::line::TooWide;
use matrix_lines::matrix::Matrix;

// The companions undergo the row operations, by rows, their inverses, by columns, the column operations, by columns, and their inverses, by rows.
#[derive(Clone, Copy)]
pub struct Workspace {
    pub matrix: Matrix,
    pub row_inverse: Matrix,
    pub row_follower: Matrix,
    pub column_follower: Matrix,
    pub column_inverse: Matrix,
}

// Does the operation to a follower, then its inverse to an inverse companion. Where both are absent nothing is called. It is handed the largest
// absolute value that the operation wrote before, and answers the largest after it.
fn follow(
    follower: Matrix,
    inverse: Matrix,
    w: &mut [i32],
    op: Operation,
    before: u64,
) -> Result<u64, TooWide>
    requires held { Held (length w.old) follower × Held (length w.old) inverse × Bounded before w.old }
    requires fits { Fits follower.lines (operation_of op) × Fits inverse.lines (undoing (operation_of op)) }
    ensures { Followed follower inverse (operation_of op) before w.old result w.new }
{
    if follower.width == 0 && inverse.width == 0 {
        return Ok(before);
    }
    let undone = op.inverse();
    let first = on_lines(follower, w, op, before)?;
    on_lines(inverse, w, undone, first)
}

impl Workspace {
    // Does the operation to the rows of the matrix, and so to its companions. It answers the largest absolute value that it wrote.
    pub fn on_rows(self, w: &mut [i32], op: Operation) -> Result<u64, TooWide>
        requires laid { Laid (length w.old) self }
        requires small { Small w.old }
        requires fits { Fits self.matrix.lines (operation_of op) }
        ensures { RowsOperated self (operation_of op) w.old result w.new }
    {
        let first = on_lines(self.matrix, w, op, 0)?;
        follow(self.row_follower, self.row_inverse, w, op, first)
    }

    // The same on columns. Where column k is subtracted, its one nonzero entry stands in row k: the matrix changes in that row alone.
    pub fn on_columns(self, w: &mut [i32], op: Operation) -> Result<u64, TooWide>
        requires laid { Laid (length w.old) self }
        requires small { Small w.old }
        requires fits { Fits self.matrix.width (operation_of op) × Alone self.matrix w.old (operation_of op) }
        ensures { ColumnsOperated self (operation_of op) w.old result w.new }
    {
        let first = on_places(self.matrix, w, op, 0)?;
        follow(self.column_follower, self.column_inverse, w, op, first)
    }

    // Exchanges rows i and k. A row is not exchanged with itself.
    pub fn swap_rows(self, w: &mut [i32], i: usize, k: usize) -> Result<u64, TooWide>
        requires laid { Laid (length w.old) self }
        requires small { Small w.old }
        requires i_lt_lines { (i < self.matrix.lines) × (k < self.matrix.lines) }
        ensures { RowsOperated self (swap i k) w.old result w.new }
    {
        if i == k {
            return Ok(0);
        }
        self.on_rows(w, Operation::Swap(i, k))
    }

    // The same on columns.
    pub fn swap_columns(self, w: &mut [i32], j: usize, k: usize) -> Result<u64, TooWide>
        requires laid { Laid (length w.old) self }
        requires small { Small w.old }
        requires j_lt_width { (j < self.matrix.width) × (k < self.matrix.width) }
        ensures { ColumnsOperated self (swap j k) w.old result w.new }
    {
        if j == k {
            return Ok(0);
        }
        self.on_columns(w, Operation::Swap(j, k))
    }
}
