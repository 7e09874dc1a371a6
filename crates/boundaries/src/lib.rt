// Boundary matrices of an accepted sheet: their entries in a work slice, and a product with one.
#![tactic(auto)]

pub mod fill;
pub mod product;
