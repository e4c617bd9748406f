//! A table of how often keys were counted: each key stands once, with a natural number.
#![tactic(auto)]

mod tally;

pub use tally::{Tally, counting_adds_up};
