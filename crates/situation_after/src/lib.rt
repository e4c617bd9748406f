//! What becomes of a situation: the situation of a script at its start, and the one after an entry.
#![tactic(auto)]

mod begun;
mod counts;
mod driver;
mod going;
mod jobs;
mod kinds;
mod line;
mod reached;
mod seats;
mod step;
mod unripe;

pub use begun::start;
pub use going::onward;
pub use reached::each_situation_is_reached;
pub use step::after;
