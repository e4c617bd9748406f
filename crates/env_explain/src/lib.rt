//! Why a log is none that a run of the script may write: the judge names the place, and what a seat does next there, or what
//! it waits for, is the cause.
#![tactic(auto)]

mod explain;
mod logs;

pub use logs::{explain_log, explain_prefix};
