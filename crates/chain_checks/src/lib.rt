// The checks of given chains: document 01, the refusals 11 and 12.
#![tactic(auto)]

pub mod chain;
pub mod check;
