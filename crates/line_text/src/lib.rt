//! A line of text that is made without memory: words and decimal numbers, put at its end one after the other.
#![tactic(auto)]

mod line;

pub use line::{Line, add, add_decimal, add_number, add_word};
