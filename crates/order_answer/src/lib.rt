//! What is answered to the text of what each seat saw of a run of a script, or of its open plan: the log of an order of it, or that there
//! is none, or that none was found, and how far an order goes.
#![tactic(auto)]

mod against;
mod answer;
mod bad;
mod said;

pub use answer::{Answer, answer_events};
pub use bad::BadEvents;
