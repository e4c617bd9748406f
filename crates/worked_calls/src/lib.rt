//! Tests of the crates below that are lists of calls, with gates and threads of their own, and what other tests use too:
//! the bodies that they run, and scripts and logs by their texts.
#![tactic(auto)]

#[cfg(test)]
mod alone;
mod bodies;
#[cfg(test)]
mod calls;
#[cfg(test)]
mod counts;
#[cfg(test)]
mod desk_calls;
#[cfg(test)]
mod desks;
#[cfg(test)]
mod fronts;
#[cfg(test)]
mod lives;
#[cfg(test)]
mod notes;
#[cfg(test)]
mod one_env;
#[cfg(test)]
mod scripts;
mod texts;
#[cfg(test)]
mod threads;

pub use bodies::{CountedBody, Word, bodies_of};
pub use texts::{assert_log, script_of};
