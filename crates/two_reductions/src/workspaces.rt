// The workspaces of the two reductions of a dimension: first the matrix, in room for the wider of the two; then V by columns and its inverse by rows, of
// which the second reduction takes the lines from the rank on; then the transform of the columns of the second by columns, `kept` numbers each, 0 where
// it is absent.
ghost use Rattle.std.specs.Prelude.{◌≡◌, ◌+◌, ◌*◌, ◌<◌, ◌≤◌, max};
ghost use Rattle.reports.specs.Reductions.{width};
ghost use Rattle.two_reductions.specs.Workspaces.{first_workspace, second_workspace};

use crate::cell_counts::CellCounts;
use matrix_lines::matrix::Matrix;
use operations::workspace::Workspace;

// The length of a line of the transform of the columns of the second reduction.
pub fn kept_width(tracked: bool, columns: usize) -> usize
    ensures { result ≡ width tracked columns }
{
    if tracked { columns } else { 0 }
}

impl CellCounts {
    // The slots that the matrix takes.
    fn room(self) -> usize
        ensures { result ≡ self.cells * max self.rows self.columns }
    {
        self.cells * self.rows.max(self.columns)
    }

    // The slots that both workspaces take.
    pub fn work_slots(self) -> usize
        ensures { result ≡ self.cells * (2 * self.cells + max self.rows self.columns) }
    {
        self.cells * (2 * self.cells + self.rows.max(self.columns))
    }

    // The workspace of the first reduction.
    pub fn first_workspace(self) -> Workspace
        ensures { result ≡ first_workspace self.cells self.rows self.columns }
    {
        let room = self.room();
        let CellCounts { cells, rows, .. } = self;
        Workspace {
            matrix: Matrix {
                at: 0,
                lines: rows,
                width: cells,
            },
            row_inverse: Matrix {
                at: room,
                lines: rows,
                width: 0,
            },
            row_follower: Matrix {
                at: room,
                lines: rows,
                width: 0,
            },
            column_follower: Matrix {
                at: room,
                lines: cells,
                width: cells,
            },
            column_inverse: Matrix {
                at: room + cells * cells,
                lines: cells,
                width: cells,
            },
        }
    }

    // The workspace of the second reduction, after a first one of this rank.
    pub fn second_workspace(self, kept: usize, rank: usize) -> Workspace
        requires { (kept < 65536) × (rank ≤ self.cells) }
        ensures { result ≡ second_workspace self.cells self.rows self.columns kept rank }
    {
        let CellCounts { cells, columns, .. } = self;
        let room = self.room();
        let end = room + 2 * (cells * cells);
        let lines = cells - rank;
        Workspace {
            matrix: Matrix {
                at: 0,
                lines,
                width: columns,
            },
            row_inverse: Matrix {
                at: room + rank * cells,
                lines,
                width: cells,
            },
            row_follower: Matrix {
                at: room + cells * cells + rank * cells,
                lines,
                width: cells,
            },
            column_follower: Matrix {
                at: end,
                lines: columns,
                width: kept,
            },
            column_inverse: Matrix {
                at: end + columns * kept,
                lines: columns,
                width: 0,
            },
        }
    }
}
