//! What a task asks of the pool, and what the phases of shutdown forbid: plain values, and the two rules
//! that every other crate decides by.
#![tactic(auto)]

mod phase;
mod rules;
mod traits;

pub use phase::Phase;
pub use rules::{effective, forbids};
pub use traits::{Behaviour, Priority, Traits};
