//! The words of a line of a script, and what a word says at its place: a value, or the reason why it says none, of
//! which the least counts.
#![tactic(auto)]

mod keywords;
mod numbers;
mod places;
mod posting;
mod reason;
mod steps;
mod words;

pub use numbers::number_from;
pub use posting::read_posting;
pub use reason::{Reason, both};
pub use steps::read_steps;
pub use words::{Words, begins_comment, is_blank, is_mark};
