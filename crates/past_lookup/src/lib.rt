//! What the entries of a past say of a task, a job or a runner, looked up one by one. Each function answers one notion
//! of the past, and goes through the entries at most a few times for it.
#![tactic(auto)]

mod jobs;
mod keys;
mod phases;
mod policies;
mod posts;
mod priorities;
mod runners;

pub use jobs::{
    JobPost, concurrency, has_unclaimed, is_cancelled, is_job_accepted, job_post_of, job_priority,
    value_of,
};
pub use keys::{key_at, key_of};
pub use phases::{is_forbidden, is_job_forbidden};
pub use policies::is_held;
pub use posts::{Post, is_taken, post_of};
pub use priorities::priority_of;
pub use runners::{is_others, is_parallel};
