// Steps b, c and d of document 01's reduction on a matrix and its companions in a lent slice.
#![tactic(auto)]

pub mod bring;
pub mod pass;
