// The faces of the cells of an accepted sheet, by their places, and their signs.
#![tactic(auto)]

pub mod face;
