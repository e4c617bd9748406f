//! How many whole logs a script has, counted by situations: what seats may do and what becomes of a situation are told by the
//! situation alone, so the pasts of one length are counted by the situations that they are in.
//!
//! The functions have empty bodies: each states laws of the counts in its contract.
#![tactic(auto)]

mod counted;
mod told;

pub use counted::{
    counts_may_stand_in_any_order, layers_count_the_pasts, layers_count_the_whole_logs,
};
pub use told::{the_situation_tells_the_next, the_situation_tells_what_may_come};
