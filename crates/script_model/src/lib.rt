//! What a script is: the grammar, from words to lines, with the reason of each line that is none; the canonical text; the
//! bound on the entries of a run; and what is posted. The definitions are for specs and proofs alone; no function here
//! is called by a program.
//!
//! The functions have empty bodies: each states laws in its contract.
#![tactic(auto)]

mod grammar;
mod sound_scripts;

pub use grammar::first_bad_line_is_the_fault;
pub use sound_scripts::{scripts_that_are_read_are_sound, scripts_that_are_read_are_valid};
