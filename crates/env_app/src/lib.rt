//! The program behind the command line: from words and bytes to the log of a run, the verdict on a log or its trace, a
//! script that is made from a number, what such a script's run adds up to, or why an input is none.
//!
//! A call is seen by its words, its status, and what the outside tells before and after it: the bytes that the source
//! has left, the bytes that the sink and the notes hold, and the count of failures of each.
#![tactic(auto)]

mod notes;
mod run;

pub use app_modes::Failure;
pub use notes::tell;
pub use run::run_words;
