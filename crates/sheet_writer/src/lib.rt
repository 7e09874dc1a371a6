// The sheet of a set of cells.
#![tactic(auto)]

pub mod write;
