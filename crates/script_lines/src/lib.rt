//! What one line of a script says by its words alone: a command with its values, or the reason why it says nothing.
//! What earlier lines have to do with it is not looked at here.
#![tactic(auto)]

mod actions;
mod command;
mod fault;
mod lines;
mod read;
mod stepped;

pub use command::Command;
pub use fault::{LineFault, refuse};
pub use read::{read_line, without_return};
