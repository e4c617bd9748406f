//! What the past and the script have to do with an entry that may not come, as texts: lines of plain words after those that say
//! why, or one more key of the JSON object that says why.
//!
//! Contracts see a text as its bytes.
#![tactic(auto)]

mod json;
mod plain;

pub use json::with_context;
pub use plain::with_lines;
