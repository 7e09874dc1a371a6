// The reduction of document 01 on a matrix and its companions in a lent slice.
#![tactic(auto)]

pub mod reduction;
pub mod stage;
