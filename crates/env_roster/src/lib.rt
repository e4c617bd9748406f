//! The environment under the turn, with a note of who rests: a seat that found nothing to do may sleep, and whoever brings it
//! something to do wakes it. Contracts see the environment and the note of each seat, and no wake is lost at any moment
//! (`specs/Wakes.antt`).
#![tactic(auto)]

mod note;
mod notes;
mod roster;

pub use note::{Note, Rest, Wake, Woken};
pub use notes::Notes;
pub use roster::{Roster, no_wake_is_lost};
