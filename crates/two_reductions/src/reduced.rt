// What the two reductions of a dimension leave.
use operations::workspace::Workspace;

// Where the matrices of the second reduction stand in the work slice, its rank, and the peak: the largest absolute value that an entry of the two has
// had.
#[derive(Clone, Copy)]
pub struct Reduced {
    pub workspace: Workspace,
    pub rank: usize,
    pub peak: u64,
}
