//! What each seat saw as text, a line for each event: the reader of such a text, and what is wrong with events that are spelt well.
//!
//! What is read are the events of exactly this text. Contracts see events as a list.
#![tactic(auto)]

mod events;
mod fault;
mod lines;
mod mistakes;
mod read;

pub use fault::EventFault;
pub use lines::event_line;
pub use mistakes::{EventMistake, mistake_of};
pub use read::read_events;
