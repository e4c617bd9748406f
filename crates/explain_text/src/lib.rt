//! Explanations of why a log is illegal as texts: a line of plain words, or a compact JSON object.
//!
//! Contracts see a text as its bytes.
#![tactic(auto)]

mod json;
mod mistakes;
mod open_object;
mod open_plain;
mod plain;

pub use json::told_json;
pub use mistakes::{mistake_json, mistake_text};
pub use open_object::open_json;
pub use open_plain::{open_cause_text, open_text};
pub use plain::{cause_text, told_text};
