//! What is said of bytes that are no script names a place, and what is wrong there: laws of the definitions that `script_lint`
//! keeps to.
//!
//! The functions have empty bodies: each states laws in its contract. No function here is called by a program.
#![tactic(auto)]

mod cut;
mod fault;
mod refused;
mod worded;

pub use cut::the_bad_line_is_cut_out;
pub use fault::each_fault_says_what_is_wrong;
pub use refused::each_refused_line_has_its_place;
pub use worded::each_bad_word_has_its_place;
