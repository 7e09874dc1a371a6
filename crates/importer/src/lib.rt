// The import of a mesh text. `import` is the call; the other modules are its parts.
#![tactic(auto)]

mod elements;
mod gather;
pub mod import;
mod nodes;
