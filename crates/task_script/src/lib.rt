//! Scripts read from their texts or made from a number, and the bound on the entries of a run.
//!
//! Bytes that are a script by the grammar of `script_model` give that script, and all others the first bad line and its
//! first reason. Contracts see a script as its `Plan`.
#![tactic(auto)]

mod act;
mod config;
mod declare;
mod fault;
mod generator;
mod groups;
mod lines;
mod posts;
mod read;
mod reader;
mod reasons;
mod steps;

pub use fault::ScriptFault;
pub use generator::generate;
pub use read::read_script;
pub use script_bound::events_bound;
