//! How many whole logs a script has, counted by layers of situations.
#![tactic(auto)]

mod clock;
mod count;
mod logs;
mod onward;
mod place;

pub use clock::Clock;
pub use count::{LogCount, count_logs};
