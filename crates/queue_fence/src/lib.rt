//! What keeps a main queue's tasks from running: its fence and its voters. Contracts see a fence as an order or none,
//! and voters as the list of their votes.
#![tactic(auto)]

mod fence;
mod voters;

pub use fence::Fence;
pub use voters::{MOST_VOTERS, Voters};
