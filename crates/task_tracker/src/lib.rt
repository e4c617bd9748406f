//! Shutdown as the pool sees it: which work is accepted, which may start, and what shutdown still waits for.
//! Contracts see the tracker as its phase, its policy and two counts.
#![tactic(auto)]

mod tracker;

pub use tracker::Tracker;
