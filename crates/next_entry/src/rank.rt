ghost use Rattle.std.specs.Prelude.{◌≡◌, ◌<◌, ◌^◌, length};
ghost use Rattle.list_laws.specs.Lists.{count};
ghost use Rattle.task_model.specs.Seats.{inside};
ghost use Rattle.env_core.specs.Views.{EnvView};
ghost use Rattle.env_step.specs.Hands.{AreInHand};
ghost use Rattle.next_entry.specs.Ranks.{edge_between, edge_of, edge_over, inside_of, is_item_of, is_same_source, job_rank, rank_of, task_rank};

use crate::cause::Edge;
use env_step::Hand;
use past_lookup::{is_parallel, job_post_of, job_priority, key_at, key_of, post_of, priority_of};
use task_base::{Entry, JobId, Key, Kind, Priority, RunnerId, Script, TaskId};

/// By what a source is compared with others that wait.
#[derive(Clone, Copy, Debug)]
pub struct Rank {
    pub priority: Priority,
    /// How many seats are inside it.
    pub inside: usize,
    pub key: Key,
}

/// What the source that an entry takes has over the one that another entry takes, where so many seats are inside the jobs of the two.
pub fn edge_of(
    script: &Script,
    past: &[Entry],
    next: &Kind,
    kind: &Kind,
    seats: (usize, usize),
) -> Edge
    requires few { length past.now < 2 ^ 32 }
    requires seats_next { seats.0 ≡ inside_of script.now past.now next.now }
    requires seats_kind { seats.1 ≡ inside_of script.now past.now kind.now }
    ensures { result ≡ edge_of script.now past.now next.now kind.now }
{
    if is_same_source(script, next, kind) {
        return Edge::Same;
    }
    edge_between(
        rank_of(script, past, next, seats.0),
        rank_of(script, past, kind, seats.1),
    )
}

/// Whether two entries take tasks of one sequence, or items of one job.
fn is_same_source(script: &Script, next: &Kind, kind: &Kind) -> bool
    ensures { result ≡ is_same_source script.now next.now kind.now }
{
    match (*next, *kind) {
        (
            Kind::Take {
                task: t,
                runner: r,
                ..
            },
            Kind::Take { task, runner, .. },
        ) => r == runner && (t == task || !is_parallel(script, runner)),
        (Kind::JobTake { job: j, .. }, Kind::JobTake { job, .. }) => j == job,
        _ => false,
    }
}

/// What a source has over another, where both have ranks.
fn edge_between(best: Option<Rank>, other: Option<Rank>) -> Edge
    ensures { result ≡ edge_between best other }
{
    match (best, other) {
        (Some(best), Some(other)) => edge_over(&best, &other),
        _ => Edge::Unready,
    }
}

/// What a source has over another, by their ranks.
fn edge_over(best: &Rank, other: &Rank) -> Edge
    ensures { result ≡ edge_over best.now other.now }
{
    if other.priority < best.priority {
        return Edge::Priority;
    }
    if best.priority < other.priority {
        return Edge::Barred;
    }
    if best.inside < other.inside {
        return Edge::Inside;
    }
    if other.inside < best.inside {
        return Edge::Barred;
    }
    if best.key.is_below(&other.key) {
        return Edge::Key;
    }
    Edge::Barred
}

/// By what the source that an entry takes is compared, where so many seats are inside its job.
fn rank_of(script: &Script, past: &[Entry], kind: &Kind, seats: usize) -> Option<Rank>
    requires few { length past.now < 2 ^ 32 }
    requires seats { seats ≡ inside_of script.now past.now kind.now }
    ensures { result ≡ rank_of script.now past.now kind.now }
{
    match *kind {
        Kind::Take { task, runner, .. } => task_rank(script, past, task, runner),
        Kind::JobTake { job, .. } => job_rank(script, past, job, seats),
        _ => None,
    }
}

/// By what the sequence of a task is compared, where that is the task to be taken.
fn task_rank(script: &Script, past: &[Entry], task: TaskId, runner: RunnerId) -> Option<Rank>
    requires { length past.now < 2 ^ 32 }
    ensures { result ≡ task_rank script.now past.now task runner }
{
    let post = post_of(past, task)?;
    if post.runner != runner {
        return None;
    }
    let key = key_of(past, &post)?;
    Some(Rank {
        priority: priority_of(script, past, runner),
        inside: 0,
        key,
    })
}

/// By what a job is compared, where so many seats are inside.
fn job_rank(script: &Script, past: &[Entry], job: JobId, seats: usize) -> Option<Rank>
    requires few { length past.now < 2 ^ 32 }
    requires seats { seats ≡ length (inside script.now past.now job) }
    ensures { result ≡ job_rank script.now past.now job }
{
    let post = job_post_of(past, job)?;
    if !post.ok {
        return None;
    }
    Some(Rank {
        priority: job_priority(script, job),
        inside: seats,
        key: key_at(post.place),
    })
}

/// How many seats are inside the job of which the entry takes an item.
pub fn inside_of(hands: &[Hand], kind: &Kind) -> usize
    ensures { (view : EnvView) → AreInHand view hands.now → result ≡ inside_of view.script view.history kind.now }
{
    match *kind {
        Kind::JobTake { job, .. } => seats_inside(hands, job),
        _ => 0,
    }
}

/// How many seats are inside a job.
fn seats_inside(hands: &[Hand], job: JobId) -> usize
    ensures { (view : EnvView) → AreInHand view hands.now → result ≡ length (inside view.script view.history job) }
{
    items_in_hand(hands, job)
}

/// How many items of a job are in hand.
fn items_in_hand(hands: &[Hand], job: JobId) -> usize
    ensures { result ≡ count (is_item_of job) hands.now }
{
    hands.iter().filter(|hand| is_item_of(hand, job)).count()
}

/// Whether an item of the job is in hand.
fn is_item_of(hand: &Hand, job: JobId) -> bool
    ensures { result ≡ is_item_of job hand.now }
{
    match hand {
        Hand::Item(pass) => pass.job() == job,
        Hand::Free => false,
        Hand::Task(_) => false,
    }
}
