// Reading a mesh text line by line: document 02, Note 3. Every function reads a text of any length and content, from any position.
#![tactic(auto)]

pub mod head;
pub mod keywords;
pub mod opening;
pub mod section;
pub mod title;
