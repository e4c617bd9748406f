//! What is written where no order was found: what each seat saw next, and what stands against it, as lines of plain words.
//!
//! Contracts see a text as its bytes.
#![tactic(auto)]

mod plain;

pub use plain::stuck_text;
