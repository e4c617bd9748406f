//! The canonical text of a script, put to a sink piece by piece. Contracts see a script as its `Plan`.
#![tactic(auto)]

mod write;
mod write_lines;

pub use write::write_script;
