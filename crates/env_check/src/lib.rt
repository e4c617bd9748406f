//! The judge of logs: whether a log is one that a run of the script may write. It follows the log to its end, or to its
//! first entry that is not allowed, and so takes about as long as the run.
#![tactic(auto)]

mod check;
mod verdict;

pub use check::{check_log, check_prefix, follow_all};
pub use verdict::Verdict;
