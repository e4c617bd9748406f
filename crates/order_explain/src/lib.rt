//! Why the longest beginning of an order that was found goes no further: of the next event of a seat, what stands against it there.
#![tactic(auto)]

mod stuck;

pub use stuck::{Stuck, stuck_at};
