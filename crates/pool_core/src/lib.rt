//! The pool of threads as one machine: what may start now, by priority, order, limits, policy, scopes, time and phase.
//! Contracts see the pool as what it stands for: a script and the past of its history.
#![tactic(auto)]

mod groups;
mod lanes;
mod laws;
mod pool;
mod pool_job;
mod pool_take;
mod posting;
mod task_lists;

pub use laws::other_entries_keep_the_pool;
pub use pool::Pool;
pub use pool_take::PoolTake;
