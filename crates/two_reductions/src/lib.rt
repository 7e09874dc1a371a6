// The two reductions of a dimension in the work slice.
#![tactic(auto)]

pub mod cell_counts;
pub mod reduced;
pub mod reductions;
pub mod workspaces;
