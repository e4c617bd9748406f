//! What the words of the program's command line ask for.
#![tactic(auto)]

mod options;
mod words;

pub use options::{
    Favour, MOST_SHAKE, MOST_SIZE, MOST_STEPS, MOST_WORK, Shake, USUAL_SIZE, USUAL_STEPS, Wide,
};
pub use words::{Command, Linted, command_of};
