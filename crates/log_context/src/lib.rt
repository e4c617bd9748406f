//! What the past of a log has to do with an entry that may not come after it: the entries before it that matter, and what the
//! script says of what it takes.
#![tactic(auto)]

mod context;
mod fact;
mod mark;
mod posts;
mod queues;
mod rooms;
mod scopes;
mod seats;
mod seen;
mod sought;
mod sources;
mod work;

pub use context::{SEATS_SHOWN, Waits, context_at_end, context_of, push_some};
pub use fact::{Fact, Limit, Role};
pub use sought::{MOST_SEARCHED, TASKS_SHOWN};
