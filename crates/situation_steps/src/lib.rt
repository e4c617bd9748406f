//! Situations as code: what each seat may do in one, whether it is whole, which moment a clock reads in it, and when two are the
//! same. Contracts see a situation as the record of the definitions, and each answer as what they compute.
#![tactic(auto)]

mod candidate;
mod clocks;
mod declared;
mod groups;
mod inside;
mod line;
mod next;
mod parts;
mod same;
mod sources;
mod state;
mod ways;

pub use declared::{behaviour_of_job, declared_priority, effective_at, items_of, sequence_of};
pub use parts::{DriverAt, JobAt, Running, SeatAt, Unripe, Waiter, Waits};
pub use state::Situation;
