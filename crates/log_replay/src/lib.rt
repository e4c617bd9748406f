//! A log that is followed entry by entry in an environment of its own: the seat of each entry does its step there, and where that
//! makes another entry, or none, the log's was not allowed.
#![tactic(auto)]

mod follow;
mod kinds;
mod replay;

pub use follow::reading_of;
pub use kinds::same_kind;
pub use replay::{Replay, discard};
