// Numbers read from the bytes of a sheet. Every function reads a slice of bytes of any length and content.
#![tactic(auto)]

pub mod field;
