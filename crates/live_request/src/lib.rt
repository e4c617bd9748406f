//! What crosses between C and a live environment, and what it means: a request, its answer, and what came of a plan.
//!
//! Contracts see the call that a request makes (`specs/Requests`), and the answer that tells what came of it (`specs/Told`). A
//! request that makes none is a misuse, which changes nothing.
#![tactic(auto)]

mod answer;
pub mod codes;
mod laws;
mod live;
mod named;
mod opened;
mod request;
mod slot;
mod told;

pub use answer::Answer;
pub use laws::{answers_tell_all, calls_can_be_asked, calls_may_follow};
pub use live::Live;
pub use opened::{Opened, Unopened};
pub use request::{Ask, Request};
pub use slot::Slot;
