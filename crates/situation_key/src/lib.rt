//! A situation as a list of numbers, from which it can be told: what a hash table asks for.
#![tactic(auto)]

mod keys;
mod puts;
mod told;
mod words;

pub use keys::key;
pub use told::situations_are_told_by_keys;
