// The lines of a mesh text, read from a position on: document 02, Note 3. Every function reads a text of any length and content, from any position.
#![tactic(auto)]

pub mod answer;
pub mod line;
pub mod nodes;
