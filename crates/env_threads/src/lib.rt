//! The run of a script on threads: one for each worker, and the caller's for the driver.
#![tactic(auto)]

mod crew;
mod workers;

pub use crew::{run_crew, run_shaken};
