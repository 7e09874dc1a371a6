// Loose nodes of a sheet, vertices in no edge where there is an edge. A sheet is a slice of bytes of any length and content.
#![tactic(auto)]

mod edges;
pub mod loose;
pub mod marks;
