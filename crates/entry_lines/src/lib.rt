//! Entries as lines of a log's text: the line of an entry at its place, and the kind that has the words of a line. Of a line
//! that is not spelt as it must be it tells which entry is meant. None of it takes memory.
#![tactic(auto)]

mod keywords;
mod kinds;
mod lines;
mod parts;
mod spelling;

pub use kinds::kind_of;
pub use lines::line;
pub use parts::{Part, parts_of};
pub use spelling::{is_blank_byte, meant, without_zeros};
