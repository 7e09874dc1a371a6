// What the steps a to e read of a matrix in a lent slice: the pivot, and the remainders by it.
#![tactic(auto)]

pub mod pivot;
pub mod remainder;
