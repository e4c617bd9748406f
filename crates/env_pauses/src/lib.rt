//! Pauses, which let threads overlap more than their own pace does: gates around a gate, and a desk around a desk.
//!
//! How long a pause is, is drawn by a seed. Of the time that passes in it no clause speaks.
#![tactic(auto)]

mod desk;
mod gates;
mod pauses;
mod pausing;

pub use desk::PausingDesk;
pub use gates::{ShakingGate, WorkingGate};
pub use pauses::Pauses;
pub use pausing::{Draws, NoClock, Pausing};
