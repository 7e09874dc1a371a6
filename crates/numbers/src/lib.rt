// Numbers of a machine word: divisibility, quotients rounded down, remainders.
#![tactic(auto)]

pub mod divides;
pub mod quotient;
pub mod residue;
