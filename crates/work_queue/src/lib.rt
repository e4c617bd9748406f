//! The queue of a main queue's tasks: an immediate lane and a delayed lane, each in the order of its tasks. Contracts see
//! it as two lists, with the room that was taken for them.
#![tactic(auto)]

mod queue;
mod queued;

pub use queue::WorkQueue;
pub use queued::Queued;
