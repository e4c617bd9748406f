//! What a run's log adds up to: the tasks that ended, the items that are done, what the cells hold, and what the items
//! gave; and what every run of a generated script adds up to.
#![tactic(auto)]

mod cells;
mod generated;
mod tally;
mod totals;

pub use cells::{Cells, Home};
pub use generated::runs_of_generated_scripts_add_up;
pub use tally::summary;
pub use totals::Summary;
