// The cells of a complex as words, section by section: cells are added, then their faces.
#![tactic(auto)]

pub mod close;
pub mod insert;
pub mod set;
pub mod vertices;
