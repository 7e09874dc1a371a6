// The passes of steps c and d. An operation that goes too wide ends the call there: the slice is cleared. An entry of 0 has the quotient 0, which
// changes nothing, and no operation is called for it.
ghost use Rattle.std.specs.Prelude.{length};
ghost use Rattle.passes.specs.PassAnswers.{Placed, ColumnClear, row_pass_of, column_pass_of, Passed};

use elementary_operations::operation::Operation;
use matrix_lines::line::clear;
use matrix_lines::zero::first_nonzero;
use numbers::quotient::quotient;
use operations::workspace::Workspace;
use refusal::Refusal;

// Step c: for each lower row in rising order, subtracts quotient times row k.
pub fn clear_column(
    workspace: Workspace,
    w: &mut [i32],
    k: usize,
    peak: u64,
) -> Result<u64, Refusal>
    requires { Placed workspace k peak w.old }
    ensures { Passed workspace (row_pass_of workspace k peak w.old) (length w.old) result w.new }
{
    let m = workspace.matrix;
    let mut largest = peak;
    for i in k + 1..m.lines {
        let q = quotient(m.entry(w, i, k), m.entry(w, k, k));
        if q == 0 {
            continue;
        }
        let Ok(written) = workspace.on_rows(w, Operation::Subtract(i, k, q)) else {
            clear(w);
            return Err(Refusal::TooWide);
        };
        largest = largest.max(written);
    }
    Ok(largest)
}

// Step d: for each later column in rising order, subtracts quotient times column k, whose one nonzero entry is the pivot.
pub fn clear_row(workspace: Workspace, w: &mut [i32], k: usize, peak: u64) -> Result<u64, Refusal>
    requires { ColumnClear workspace k peak w.old }
    ensures { Passed workspace (column_pass_of workspace k peak w.old) (length w.old) result w.new }
{
    let m = workspace.matrix;
    let columns = m.width;
    let mut reached = peak;
    let mut j = first_nonzero(w, m.line(k), k + 1, columns);
    while j < columns {
        let q = quotient(m.entry(w, k, j), m.entry(w, k, k));
        let Ok(written) = workspace.on_columns(w, Operation::Subtract(j, k, q)) else {
            clear(w);
            return Err(Refusal::TooWide);
        };
        reached = reached.max(written);
        j = first_nonzero(w, m.line(k), j + 1, columns);
    }
    Ok(reached)
}
