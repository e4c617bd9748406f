//! A live core, with a note of who rests: a seat that found nothing may sleep until what it asked for has come, and each call
//! says whom to wake. Contracts see the core, the note of each seat, and what the driver rests for; and no wake is lost
//! (`specs/Wakes.antt`).
#![tactic(auto)]

mod laws;
mod note;
mod rest;
mod roster;
mod rouse;
mod wake;

pub use laws::no_wake_is_lost;
pub use note::Note;
pub use rest::{Rest, Unrested};
pub use roster::LiveRoster;
pub use wake::{Wake, Woken};
