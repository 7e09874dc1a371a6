// The checks of a sheet: document 01, the refusals 2, 3 and 5 to 7.
#![tactic(auto)]

pub mod check;
mod rise;
