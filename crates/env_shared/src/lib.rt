//! The environment under the turn: many threads share it, each at a desk with a seat of its own. Each call of a desk is
//! one hold of the turn, in which it makes one call on the environment; nothing of a task's body runs meanwhile.
#![tactic(auto)]

mod bed;
mod desk;
mod hold;
mod shared;
mod sitter;
mod workers;

pub use desk::SharedDesk;
pub use shared::{EnvSeat, Shared};
