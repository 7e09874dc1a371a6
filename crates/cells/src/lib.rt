// The cells of a sheet, read from its bytes: one cell, its word, and the places of its faces.
#![tactic(auto)]

pub mod cell;
pub mod face;
pub mod section;
pub mod word;
