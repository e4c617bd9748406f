//! A run of a script on one thread: at each moment a seat is drawn from a seed, and does its one step. The same seed gives the same
//! log, which the definitions tell.
#![tactic(auto)]

mod awaited;
mod clock;
mod draw;
mod lots;
mod run;
mod schedules;
mod turn;

pub use lots::{Lots, MOST_LOTS};
pub use run::simulate;
pub use schedules::every_legal_log_is_made_by_turns;
