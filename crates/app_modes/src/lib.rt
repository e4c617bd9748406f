//! What the program's command does in each of its modes, by the words that ask for it: it reads the source and writes to the
//! sink the log of a run, on threads or simulated, the verdict on a log or its trace, an order of what each seat saw, a script that is
//! made from a number, or what such a script's run adds up to.
//!
//! A call is seen by its command, its end, and what the outside tells before and after it: the bytes that the source has left
//! and that the sink holds, the count of failures of each, and the readings of the clock. It answers no status, and tells no note.
#![tactic(auto)]

mod arrange;
mod arrange_open;
mod bench;
mod bodies;
mod check;
mod check_open;
mod commands;
mod explain;
mod explain_open;
mod failure;
mod generate;
mod judged;
mod lint;
mod nests;
mod open;
mod replies;
mod runs;
mod simulate;
mod trace;
mod trace_open;

pub use commands::execute;
pub use failure::Failure;
