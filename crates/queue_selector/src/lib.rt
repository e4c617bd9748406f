//! Which main queue's front runs next. Contracts see, for each queue, its class and the orders of its open fronts, and
//! the streak: how many delayed tasks have run while an immediate one waited.
#![tactic(auto)]

mod front;
mod front_set;
mod row;
mod selector;

pub use front::MOST_DELAYED;
pub use row::Row;
pub use selector::{LAST_CLASS, Selector};
