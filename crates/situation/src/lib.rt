//! What of a past decides its futures: its situation. Two pasts in the same situation may go on alike, so whoever counts or
//! searches the histories of a script has to look at one past of each situation only.
//!
//! The functions have empty bodies: each states laws of the situation in its contract.
#![tactic(auto)]

mod decides;
mod logs;
mod moves;

pub use decides::the_situation_decides_what_may_come;
pub use logs::{each_going_is_listed_once, each_whole_log_is_listed_once};
pub use moves::{futures_are_the_whole_logs, the_situation_moves_on};
