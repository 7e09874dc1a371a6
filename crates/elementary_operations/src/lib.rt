// The elementary operations on a matrix in a lent slice.
#![tactic(auto)]

pub mod apply;
pub mod operation;
