//! The sources that wait for a worker, with the best one at hand: a binary heap of those that are held, in which each
//! knows its place.
//!
//! Contracts see it as a finite map from sources to ranks: a list of the ranks by the sources' numbers, sequences
//! first, then jobs, with `None` for a source that is not held.
#![tactic(auto)]

mod heap;
mod queue;
mod rank;

pub use queue::SourceQueue;
pub use rank::Rank;
