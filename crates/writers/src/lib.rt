// Writing the report, the coordinates and the surface from what the two reductions leave.
#![tactic(auto)]

pub mod coordinates;
pub mod counts;
pub mod headroom;
pub mod kind;
pub mod report;
pub mod surface;
