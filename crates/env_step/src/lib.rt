//! What a seat does next: one step of it enters the entry that the rules allow it, by a call of the environment, or says what the
//! seat waits for. A log is judged by such steps, and an order of the seats makes one.
#![tactic(auto)]

mod driver;
mod hand;
mod hands;
mod item;
mod task;
mod wait;
mod worker;

pub use hand::{AtTask, Hand, do_rest};
pub use hands::Hands;
pub use wait::Wait;
