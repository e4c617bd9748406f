//! Why a log is none that an environment of a script's open plan may write: the judge makes the call of each entry on a live core,
//! and what the call of the bad one gives there, or why it may not be made, is the cause.
#![tactic(auto)]

mod cause;
mod explain;
mod inside;
mod laws;
mod parts;

pub use explain::{explain_open, explain_open_prefix};
pub use laws::parts_are_exact;
