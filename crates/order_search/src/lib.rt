//! A search for an order of events that each seat of a pool saw for itself: one that their seats and their times allow, and whose
//! entries are a run of the script, or a log of its open plan.
#![tactic(auto)]

mod arranged;
mod best;
mod follower;
mod merge;
mod orders;
mod placed;
mod search;
mod tries;
mod walk;

pub use arranged::Arranged;
pub use orders::{are_seated, arrange};
