//! The phase of shutdown together with the count of what blocks it, so that the two change as one value.
//! Contracts see it as the record of both.
#![tactic(auto)]

mod phase_count;

pub use phase_count::{MAX_BLOCKERS, PhaseCount, StillBlocked};
