// Writing the text of a report.
#![tactic(auto)]

mod decimal;
mod line;
pub mod writer;
