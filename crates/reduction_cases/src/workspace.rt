// Where a matrix and its companions stand: each has 64 slots.
ghost use Rattle.std.specs.Prelude.{◌≤◌};
ghost use Rattle.reduction_cases.specs.Workspace.{side, Companion, LaidOut};

use matrix_lines::matrix::Matrix;
use operations::workspace::Workspace;

// The most rows or columns.
pub const SIDE: usize = 8;

pub const SLOTS: usize = 320;

// The companions asked for.
#[derive(Clone, Copy)]
pub struct Asked {
    pub row_follower: bool,
    pub row_inverse: bool,
    pub column_follower: bool,
    pub column_inverse: bool,
}

// The companions that a byte asks for: the sum of 1 row follower, 2 its inverse, 4 column follower, 8 its inverse.
impl From<u8> for Asked {
    fn from(companions: u8) -> Asked {
        Asked {
            row_follower: companions & 1 != 0,
            row_inverse: companions & 2 != 0,
            column_follower: companions & 4 != 0,
            column_inverse: companions & 8 != 0,
        }
    }
}

// A square companion at `at`, whose lines have length 0 where it is not asked for.
fn companion(at: usize, lines: usize, asked: bool) -> Matrix
    requires { lines ≤ side }
    ensures { Companion at lines result }
{
    Matrix {
        at,
        lines,
        width: if asked { lines } else { 0 },
    }
}

// The places of a matrix and its companions.
pub fn lay_out(rows: usize, columns: usize, asked: Asked) -> Workspace
    requires { (rows ≤ side) × (columns ≤ side) }
    ensures { LaidOut result }
{
    Workspace {
        matrix: Matrix {
            at: 0,
            lines: rows,
            width: columns,
        },
        row_inverse: companion(64, rows, asked.row_inverse),
        row_follower: companion(128, rows, asked.row_follower),
        column_follower: companion(192, columns, asked.column_follower),
        column_inverse: companion(256, columns, asked.column_inverse),
    }
}
