//! What each place of a line takes, in the lines of scripts, replies and nest scripts, and the first place of a line that
//! a reason speaks of which its words alone give. Places are counted from 1, the command's.
//!
//! Which lines are bad, and for which reason, is defined by the grammars; here is only where.
#![tactic(auto)]

mod bytes;
mod expected;
mod faults;
mod first;
mod length;
mod tables;
mod words;

pub use bytes::{Lines, cut_at};
pub use expected::{Expected, Found, Language, Length, Thing};
pub use first::{first_beyond_ascii, first_place};
pub use length::line_length;
pub use words::{command_of, id_of, word_at};
