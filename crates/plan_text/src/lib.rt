//! What the text of a plan is besides that of a script: it has no actions, and the first line that is one is told.
#![tactic(auto)]

mod actions;

pub use actions::action_line;
