// One stage of the reduction. Pivot choice, row pass and column pass call one another; the pivot's absolute value falls on each return to the
// choice, and step e is followed by a column pass that leaves a remainder. The number of rounds bounds how deep the calls go.
ghost use Rattle.reduction_steps.specs.Pivot.{pivot_rule};
ghost use Rattle.reduction_steps.specs.Step as steps;
ghost use Rattle.passes.specs.PassAnswers.{Placed, ColumnClear};
ghost use Rattle.reducer.specs.StageAnswers.{Begun, ChoiceEnds, PassEnds};

use elementary_operations::operation::Operation;
use matrix_lines::line::clear;
use operations::workspace::Workspace;
use passes::bring::bring_pivot;
use passes::pass::{clear_column, clear_row};
use refusal::Refusal;
use scans::pivot::find_pivot;
use scans::remainder::{column_keeps, first_indivisible, row_keeps};

// How many pivots one call of the cycle tries. A round takes at most four frames: the choice, the row pass, the column pass, and the column pass
// after step e. The choice that finds no round left is one more, so that the cycle is at most 4 * ROUNDS + 1 = 33 frames deep. Its proof shows this:
// the measure by which it ends (proofs/Measures.antt) is 4 * ROUNDS at the first call and falls with every call.
pub const ROUNDS: usize = 8;

// Cleared: the stage is over and k rises by one. Exhausted: there is no pivot, and the rank is k. Again: no round is left, and the stage goes on from
// its choice. Each holds the peak.
#[derive(Clone, Copy)]
pub enum Stage {
    Cleared(u64),
    Exhausted(u64),
    Again(u64),
}

// Steps a and b, where a round is left.
#[cycle(choose_pivot_column_pass_row_pass)]
pub fn choose_pivot(
    workspace: Workspace,
    w: &mut [i32],
    k: usize,
    rounds: usize,
    peak: u64,
) -> Result<Stage, Refusal>
    requires { Begun workspace k peak w.old }
    ensures { ChoiceEnds pivot_rule workspace k rounds peak w.old result w.new }
{
    if rounds == 0 {
        return Ok(Stage::Again(peak));
    }
    let Some((i, j)) = find_pivot(workspace.matrix, w, k) else {
        return Ok(Stage::Exhausted(peak));
    };
    let brought = bring_pivot(workspace, w, k, i, j, peak)?;
    row_pass(workspace, w, k, rounds - 1, brought)
}

// Step c.
#[cycle(choose_pivot_column_pass_row_pass)]
fn row_pass(
    workspace: Workspace,
    w: &mut [i32],
    k: usize,
    rounds: usize,
    peak: u64,
) -> Result<Stage, Refusal>
    requires { Placed workspace k peak w.old }
    ensures { PassEnds pivot_rule steps.c workspace k rounds peak w.old result w.new }
{
    let cleared = clear_column(workspace, w, k, peak)?;
    if column_keeps(workspace.matrix, w, k) {
        return choose_pivot(workspace, w, k, rounds, cleared);
    }
    column_pass(workspace, w, k, rounds, cleared)
}

// Steps d and e.
#[cycle(choose_pivot_column_pass_row_pass)]
fn column_pass(
    workspace: Workspace,
    w: &mut [i32],
    k: usize,
    rounds: usize,
    peak: u64,
) -> Result<Stage, Refusal>
    requires { ColumnClear workspace k peak w.old }
    ensures { PassEnds pivot_rule steps.d workspace k rounds peak w.old result w.new }
{
    let cleared = clear_row(workspace, w, k, peak)?;
    if row_keeps(workspace.matrix, w, k) {
        return choose_pivot(workspace, w, k, rounds, cleared);
    }
    let Some(i) = first_indivisible(workspace.matrix, w, k) else {
        return Ok(Stage::Cleared(cleared));
    };
    let Ok(added) = workspace.on_rows(w, Operation::Subtract(k, i, -1)) else {
        clear(w);
        return Err(Refusal::TooWide);
    };
    let reached = cleared.max(added);
    column_pass(workspace, w, k, rounds, reached)
}
