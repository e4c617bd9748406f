ghost use Rattle.std.specs.Prelude.{◌≡◌, ◌<◌, ◌^◌, length};
ghost use Rattle.past_lookup.specs.Posts.{posted};
ghost use Rattle.task_model.specs.Seats.{inside};
ghost use Rattle.next_entry.specs.Bars.{bar_of, has_place, job_bar, posted_bar, task_bar};
ghost use Rattle.next_entry.specs.Ranks.{inside_of};

use crate::cause::Bar;
use crate::seats::runs_sequence;
use past_lookup::{
    Post, concurrency, has_unclaimed, is_cancelled, is_forbidden, is_held, is_job_accepted,
    is_job_forbidden, is_others, is_taken, job_priority, key_of, post_of, priority_of,
};
use task_base::{Entry, JobId, Kind, RunnerId, Script, SeatNo, TaskId};

/// What is against the take of the source that an entry takes, where so many seats are inside its job.
pub fn bar_of(script: &Script, past: &[Entry], entry: &Entry, seats: usize) -> Bar
    requires few { length past.now < 2 ^ 32 }
    requires workers { script.now.workers < u32.MAX }
    requires seats { seats ≡ inside_of script.now past.now entry.now.kind }
    ensures { result ≡ bar_of script.now past.now entry.now.seat entry.now.kind }
{
    match entry.kind {
        Kind::Take { task, runner, .. } => task_bar(script, past, entry.seat, task, runner),
        Kind::JobTake { job, .. } => job_bar(script, past, job, seats),
        _ => Bar::Unaccepted,
    }
}

/// What is against the take of a task of a runner.
fn task_bar(script: &Script, past: &[Entry], seat: SeatNo, task: TaskId, runner: RunnerId) -> Bar
    requires few { length past.now < 2 ^ 32 }
    requires workers { script.now.workers < u32.MAX }
    ensures { result ≡ task_bar script.now past.now seat task runner }
{
    match post_of(past, task) {
        None => Bar::Unaccepted,
        Some(post) => {
            if post.runner == runner {
                posted_bar(script, past, seat, &post)
            } else {
                Bar::Unaccepted
            }
        }
    }
}

/// What is against the take of a task that was accepted.
fn posted_bar(script: &Script, past: &[Entry], seat: SeatNo, post: &Post) -> Bar
    requires few { length past.now < 2 ^ 32 }
    requires workers { script.now.workers < u32.MAX }
    ensures { result ≡ posted_bar script.now past.now seat (posted post.now) }
{
    if is_taken(past, post.task) {
        return Bar::Taken;
    }
    if is_forbidden(script, past, post) {
        return Bar::Forbidden;
    }
    if key_of(past, post).is_none() {
        return Bar::Unripe;
    }
    if runs_sequence(script, past, post.runner, post.task) {
        return Bar::Busy;
    }
    if is_others(script, seat, post.runner) {
        return Bar::OtherSeat;
    }
    if is_held(past, priority_of(script, past, post.runner)) {
        return Bar::Held;
    }
    Bar::Limit
}

/// What is against the take of an item of a job, where so many seats are inside.
fn job_bar(script: &Script, past: &[Entry], job: JobId, seats: usize) -> Bar
    requires few { length past.now < 2 ^ 32 }
    requires seats { seats ≡ length (inside script.now past.now job) }
    ensures { result ≡ job_bar script.now past.now job }
{
    if !is_job_accepted(past, job) {
        return Bar::Unaccepted;
    }
    if is_cancelled(past, job) {
        return Bar::Cancelled;
    }
    if is_job_forbidden(script, past, job) {
        return Bar::Forbidden;
    }
    if !has_unclaimed(script, past, job) {
        return Bar::Claimed;
    }
    if !has_place(script, past, job, seats) {
        return Bar::Full;
    }
    if is_held(past, job_priority(script, job)) {
        return Bar::Held;
    }
    Bar::Limit
}

/// Whether one more seat may go inside a job, where so many are.
fn has_place(script: &Script, past: &[Entry], job: JobId, seats: usize) -> bool
    requires { seats ≡ length (inside script.now past.now job) }
    ensures { result ≡ has_place script.now past.now job }
{
    seats < concurrency(script, past, job)
}
