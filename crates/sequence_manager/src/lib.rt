//! The main queues as one machine: which main task runs next, by class, order, fence, votes, time and starvation.
//! Contracts see the manager as what it stands for: a script and the past of its history.
#![tactic(auto)]

mod laws;
mod manager;
mod rooms;
mod task_queue;
mod task_queues;

pub use laws::other_entries_keep_the_main_queues;
pub use manager::Manager;
