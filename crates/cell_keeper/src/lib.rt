// The sheet of the cells of a sheet whose marks are not 1. `keep` has the call; the other modules are its parts.
#![tactic(auto)]

mod copy;
mod count;
pub mod keep;
