//! How many entries a run of a script may have at most, counted from the script by the rules of `script_model`.
#![tactic(auto)]

mod bound;

pub use bound::events_bound;
