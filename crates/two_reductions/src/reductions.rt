// The two reductions of a dimension.
ghost use Rattle.std.specs.Prelude.{◌≡◌, ◌<◌, ◌≤◌, length, replicate, pos};
ghost use Rattle.matrices.specs.Matrix.{Eq, identity, null};
ghost use Rattle.sheet_format.specs.Layout.{top};
ghost use Rattle.sheet_format.specs.Check.{sections_of};
ghost use Rattle.reduction_steps.specs.Pivot.{pivot_rule};
ghost use Rattle.requests.specs.Call.{work_slots, work_slots_for};
ghost use Rattle.reports.specs.Reductions.{second_columns_only, reductions_of};
ghost use Rattle.matrix_lines.specs.Matrices.{Held, contents};
ghost use Rattle.boundaries.specs.Filled.{MatrixFilled};
ghost use Rattle.faces.specs.Face.{Accepted};
ghost use Rattle.reducer.specs.StageAnswers.{Reduces, ReductionDone};
ghost use Rattle.two_reductions.specs.CellCounts.{CellCountsRead};
ghost use Rattle.two_reductions.specs.Slices.{first_workspace_of, first_reduction, start_peak, Filled, TwiceReduced, ZeroFrom};

use crate::cell_counts::CellCounts;
use crate::reduced::Reduced;
use crate::workspaces::kept_width;
use boundaries::fill::{fill_boundary, fill_identity};
use boundaries::product::multiply;
use matrix_lines::line::clear;
use matrix_lines::matrix::Matrix;
use operations::workspace::Workspace;
use reducer::reduction::{Reduction, reduce_matrix};
use refusal::Refusal;

// Sets up the first reduction in a slice that reads 0: the boundary matrix of dimension p, V and its inverse.
fn fill_first(s: &[u8], p: usize, workspace: Workspace, w: &mut [i32])
    requires accepted { Accepted s.now × (p ≤ top) }
    requires p_in_bounds { work_slots (sections_of s.now) p ≤ length w.old }
    requires workspace_value { workspace ≡ first_workspace_of (sections_of s.now) p }
    requires w_value { w.old ≡ replicate (length w.old) (pos 0) }
    ensures { Filled (sections_of s.now) p (length w.old) w.new }
{
    if 0 < p {
        fill_boundary(s, p - 1, workspace.matrix, w);
    }
    fill_identity(workspace.column_follower, w);
    fill_identity(workspace.column_inverse, w);
}

// The peak at the start of the first reduction: V and its inverse are identities, and no entry of the boundary matrix is larger.
fn start_peak(cells: usize) -> u64
    ensures { result ≡ start_peak cells }
{
    if cells == 0 { 0 } else { 1 }
}

// Writes the identity where a transform is kept; one that is absent has lines of length 0.
fn fill_transform(m: Matrix, w: &mut [i32])
    requires { Held (length w.old) m × (0 < m.width → m.lines ≡ m.width) × Eq m.lines m.width (contents m w.old) null }
    ensures { MatrixFilled m w.old identity w.new }
{
    if 0 < m.width {
        fill_identity(m, w);
    }
}

// Reduces the boundary matrix of dimension p in a slice that reads 0.
fn reduce_first(s: &[u8], p: usize, n: CellCounts, w: &mut [i32]) -> Result<Reduction, Refusal>
    requires accepted { Accepted s.now × (p ≤ top) }
    requires p_in_bounds { work_slots (sections_of s.now) p ≤ length w.old }
    requires cell_counts_read { CellCountsRead (sections_of s.now) p n }
    requires w_value { w.old ≡ replicate (length w.old) (pos 0) }
    ensures { let K = sections_of s.now in Reduces (first_workspace_of K p) (first_reduction pivot_rule K p) (length w.old) result w.new }
{
    let first = n.first_workspace();
    fill_first(s, p, first, w);
    reduce_matrix(first, w, start_peak(n.cells))
}

// Reduces Q times the boundary matrix of dimension p + 1 after the first reduction, with the transform of the columns where it is tracked. The slots
// behind those of the first reduction read 0.
fn reduce_second(
    s: &[u8],
    p: usize,
    n: CellCounts,
    tracked: bool,
    first: Reduction,
    w: &mut [i32],
) -> Result<Reduced, Refusal>
    requires accepted { Accepted s.now × (p ≤ top) }
    requires p_in_bounds { work_slots_for (second_columns_only tracked) (sections_of s.now) p ≤ length w.old }
    requires cell_counts_read { CellCountsRead (sections_of s.now) p n }
    requires reduction_done { ReductionDone (first_workspace_of (sections_of s.now) p) (first_reduction pivot_rule (sections_of s.now) p) (length w.old) first.rank first.peak w.old }
    requires zero_from { ZeroFrom (work_slots (sections_of s.now) p) w.old }
    ensures { let K = sections_of s.now in TwiceReduced K p tracked (reductions_of (second_columns_only tracked) pivot_rule K p) (length w.old) result w.new }
{
    let kept = kept_width(tracked, n.columns);
    let second = n.second_workspace(kept, first.rank);
    fill_transform(second.column_follower, w);
    let Ok(product) = multiply(s, p, second.row_follower, second.matrix, w) else {
        clear(w);
        return Err(Refusal::TooWide);
    };
    let started = first.peak.max(start_peak(kept)).max(product);
    let last = reduce_matrix(second, w, started)?;
    Ok(Reduced {
        workspace: second,
        rank: last.rank,
        peak: last.peak,
    })
}

// The two reductions of dimension p. The work slice is cleared, and the first reduction is lent the slots that it uses, so that the room for the transform
// reads 0 when the second begins.
pub fn reduce_twice(
    s: &[u8],
    p: usize,
    n: CellCounts,
    tracked: bool,
    w: &mut [i32],
) -> Result<Reduced, Refusal>
    requires accepted { Accepted s.now × (p ≤ top) }
    requires p_in_bounds { work_slots_for (second_columns_only tracked) (sections_of s.now) p ≤ length w.old }
    requires cell_counts_read { CellCountsRead (sections_of s.now) p n }
    ensures { let K = sections_of s.now in TwiceReduced K p tracked (reductions_of (second_columns_only tracked) pivot_rule K p) (length w.old) result w.new }
{
    clear(w);
    let slots = n.work_slots();
    let first = reduce_first(s, p, n, &mut w[..slots])?;
    reduce_second(s, p, n, tracked, first, w)
}
