//! The task environment of a process, for whoever brings the threads: which work may start now, of a pool and of main queues,
//! by calls that may come at any time. Contracts see the core as what it stands for: an open plan and the past of its one
//! history.
//!
//! It knows of no thread, lock or closure, keeps no history, and takes all memory as it is opened.
#![tactic(auto)]

mod books;
mod call;
mod laws;
mod live;
mod unmade;

pub use call::Call;
pub use laws::{calls_are_exact, live_theorem};
pub use live::LiveCore;
pub use unmade::{OpenError, Unmade};
