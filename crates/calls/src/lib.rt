// The library's calls: the report of a dimension, the coordinates of one chain or of many, and the surface that a chain bounds.
#![tactic(auto)]

pub mod admission;
pub mod coordinates;
pub mod report;
pub mod slots;
pub mod surface;
