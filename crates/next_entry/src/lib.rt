//! Why an entry of a seat may not come, where the seat makes another one or waits: what its best source has over the one that the
//! entry takes, or what is against the take of that. Also the words of what is said of a log.
#![tactic(auto)]

mod bar;
mod cause;
mod next;
mod open_cause;
mod rank;
mod seats;

pub use bar::bar_of;
pub use cause::{Bar, Busy, Cause, Edge, Explanation, Work};
pub use next::next_of_worker;
pub use open_cause::{OpenCause, OpenTold, Part};
pub use rank::edge_of;
pub use seats::{Held, Runs, holding, running};
