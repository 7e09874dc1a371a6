// The elements of a mesh: the nodes that are listed, the kinds, and whether an element is right.
#![tactic(auto)]

pub mod element;
pub mod kind;
pub mod listed;
