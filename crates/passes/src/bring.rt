// Step b. An operation that goes too wide ends the call there: the slice is cleared.
ghost use Rattle.std.specs.Prelude.{◌<◌, length};
ghost use Rattle.matrix_lines.specs.Slice.{Under};
ghost use Rattle.operations.specs.Laid.{Laid};
ghost use Rattle.passes.specs.PassAnswers.{bring_of, Passed};

use elementary_operations::operation::Operation;
use matrix_lines::line::clear;
use operations::workspace::Workspace;
use refusal::Refusal;

// Swaps the entry at (i, j) to place (k, k), and negates row k where that is negative.
pub fn bring_pivot(
    workspace: Workspace,
    w: &mut [i32],
    k: usize,
    i: usize,
    j: usize,
    peak: u64,
) -> Result<u64, Refusal>
    requires laid { Laid (length w.old) workspace }
    requires under { Under peak w.old }
    requires k_lt_lines { (k < workspace.matrix.lines) × (k < workspace.matrix.width) × (i < workspace.matrix.lines) × (j < workspace.matrix.width) }
    ensures { Passed workspace (bring_of workspace k i j peak w.old) (length w.old) result w.new }
{
    let Ok(rows) = workspace.swap_rows(w, i, k) else {
        clear(w);
        return Err(Refusal::TooWide);
    };
    let swapped = peak.max(rows);
    let Ok(columns) = workspace.swap_columns(w, j, k) else {
        clear(w);
        return Err(Refusal::TooWide);
    };
    let brought = swapped.max(columns);
    let m = workspace.matrix;
    if m.entry(w, k, k) < 0 {
        let Ok(negated) = workspace.on_rows(w, Operation::Negate(k)) else {
            clear(w);
            return Err(Refusal::TooWide);
        };
        return Ok(brought.max(negated));
    }
    Ok(brought)
}
