//! Where else in its log an entry might have come that may not come at its place: before an earlier entry, or after a later one.
#![tactic(auto)]

mod moves;

pub use moves::{MOST_BEFORE, REACH, place_after, place_before};
