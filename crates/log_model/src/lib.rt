//! The text and the JSON form of logs. The definitions are for specs and proofs alone; no function here is called by a
//! program, which has from here the versions of the text.
//!
//! The functions have empty bodies: each states a law in its contract.
#![tactic(auto)]

mod log_text;
mod version;

pub use log_text::{log_jsons_differ, log_texts_differ};
pub use version::Version;
