//! What the program takes from its source and writes to its sink: an input, read to its end, parted at the line `%%`,
//! and the script in it; logs, traces, scripts and texts.
//!
//! A call is seen by what the outside tells before and after it: the bytes that the source has left or that the sink
//! holds, and the count of failures of each. No function here knows of a command.
#![tactic(auto)]

mod input;
mod load;
mod parts;
mod written;

pub use load::{script_of, take_all};
pub use parts::parts_of;
pub use written::{write, write_events, write_nest_log, write_plan, write_text};
