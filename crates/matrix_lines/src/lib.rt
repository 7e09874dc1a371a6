// Lines in a lent slice of signed 32-bit numbers, operations on them, and matrices that stand there by lines.
#![tactic(auto)]

pub mod line;
pub mod matrix;
pub mod zero;
