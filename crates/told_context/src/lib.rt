//! What is to be said of an illegal log besides why: what the past and the script have to do with the entry that may not come, and
//! where else in the log it might have come; and which seats may take what the driver waits for.
#![tactic(auto)]

mod open_told;
mod takers;
mod told;

pub use open_told::open_facts_of;
pub use takers::TAKERS_SHOWN;
pub use told::{FACTS_SHOWN, facts_of};
