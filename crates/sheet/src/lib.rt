// Reading a sheet: document 01, "The sheet" and the refusals 1 to 7, and 18 of document 02. A sheet is a slice of bytes of any length and content.
#![tactic(auto)]

pub mod reader;
