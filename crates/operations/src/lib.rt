// A matrix with its companions in a lent slice: the elementary operations on all of them.
#![tactic(auto)]

pub mod workspace;
