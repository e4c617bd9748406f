//! How many paths of a bounded length lead from a place to an end, counted by layers: for each number of steps the places that are
//! reached, with how many paths lead to each. So the work goes by places, and not by paths.
#![tactic(auto)]

mod count;
mod layers;
mod walk;

pub use count::{PathCount, count_paths};
pub use walk::Walk;
