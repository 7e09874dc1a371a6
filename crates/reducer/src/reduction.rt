// The reduction from stage 0 to its rank.
ghost use Rattle.std.specs.Prelude.{length};
ghost use Rattle.reduction_steps.specs.Pivot.{pivot_rule};
ghost use Rattle.matrix_lines.specs.Slice.{Under};
ghost use Rattle.operations.specs.Laid.{Laid};
ghost use Rattle.reducer.specs.StageAnswers.{reduction_of, Reduces};

use crate::stage::{ROUNDS, Stage, choose_pivot};
use operations::workspace::Workspace;
use refusal::Refusal;

// What a reduction ends with: the rank and the peak.
#[derive(Clone, Copy)]
pub struct Reduction {
    pub rank: usize,
    pub peak: u64,
}

// Reduces the matrix, and its companions with it, by the pivot rule. It is handed the peak so far.
pub fn reduce_matrix(workspace: Workspace, w: &mut [i32], peak: u64) -> Result<Reduction, Refusal>
    requires laid { Laid (length w.old) workspace }
    requires under { Under peak w.old }
    ensures { Reduces workspace (reduction_of pivot_rule workspace peak w.old) (length w.old) result w.new }
{
    let mut largest = peak;
    let mut k: usize = 0;
    loop {
        match choose_pivot(workspace, w, k, ROUNDS, largest)? {
            Stage::Cleared(reached) => {
                k = k + 1;
                largest = reached;
            }
            Stage::Again(reached) => largest = reached,
            Stage::Exhausted(reached) => return Ok(Reduction {
                rank: k,
                peak: reached,
            }),
        }
    }
}
