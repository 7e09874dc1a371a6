// The sweep of a sheet.
#![tactic(auto)]

pub mod sweep;
