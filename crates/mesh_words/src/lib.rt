// The words and numbers of a mesh text, read from a position on: document 02, Note 3. Every function reads a text of any length and content, from any
// position.
#![tactic(auto)]

pub mod class;
pub mod number;
pub mod reader;
pub mod word;
