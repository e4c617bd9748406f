//! What is wrong with the form of a log: the mistake of its first line that is none of a log at its place, told from that line and
//! from what stands around it.
//!
//! Contracts see a text as its bytes; which mistake it is, is a function of them (`specs/Mistakes.antt`).
#![tactic(auto)]

mod find;
mod lines;
mod mistake;

pub use find::mistake_at;
pub use mistake::Mistake;
