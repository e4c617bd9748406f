//! What is wrong with a line of a script, of replies or of a nest script, and the sentence that says it: what stands at the
//! place, and what may.
#![tactic(auto)]

mod complaint;
mod expected;
mod objection;
mod quote;
mod text;

pub use complaint::{Complaint, Limited};
pub use objection::{Objection, at, by_words, none_of, objection_line, unexpected};
