//! Scripts with everything, drawn from a number: runners of all kinds, delays, scopes, main queues with fences and votes, jobs that
//! are joined, cancelled or left, policies, and a shutdown with posts after it.
//!
//! What is drawn is written as text, and read by the whole grammar: so a script comes out that can be read. Contracts see a script
//! as its `Plan`.
#![tactic(auto)]

mod act;
mod chosen;
mod declare;
mod draws;
mod goals;
mod parts;
mod text;
mod wide;

pub use parts::Parts;
pub use wide::wide_script;
