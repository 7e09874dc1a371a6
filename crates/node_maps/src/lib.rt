// Sets of vertex numbers.
#![tactic(auto)]

pub mod map;
