ghost use Rattle.std.specs.Prelude.{◌≡◌, ◌<◌, ◌^◌, length};
ghost use Rattle.log_context.specs.Posts.{is_answered_otherwise, posted, reply_of, taken, task_or_unposted};

use crate::fact::{Fact, Role};
use crate::mark::Mark;
use crate::seen::tells;
use task_base::{Entry, Kind, TaskId};

/// Where the task that the entry takes was taken before.
pub fn taken(past: &[Entry], kind: &Kind) -> Option<Fact>
    requires { length past.now < 2 ^ 32 }
    ensures { result ≡ taken past.now kind.now }
{
    match *kind {
        Kind::Take { task, .. } => tells(Role::Taken, Mark::Take { task }, past),
        Kind::MainTake { task, .. } => tells(Role::Taken, Mark::MainTake { task }, past),
        _ => None,
    }
}

/// Where the task or the job that the entry takes, or waits for, was posted.
pub fn posted(past: &[Entry], kind: &Kind) -> Option<Fact>
    requires { length past.now < 2 ^ 32 }
    ensures { result ≡ posted past.now kind.now }
{
    match *kind {
        Kind::Take { task, .. } => task_or_unposted(task, Mark::Post { task }, past),
        Kind::MainTake { task, .. } => task_or_unposted(task, Mark::Main { task }, past),
        Kind::JobTake { job, .. } => tells(Role::Posted, Mark::JobPost { job }, past),
        Kind::Joined { job, .. } => tells(Role::Posted, Mark::JobPost { job }, past),
        _ => None,
    }
}

/// Where a task was posted, or that it was not.
fn task_or_unposted(task: TaskId, mark: Mark, past: &[Entry]) -> Option<Fact>
    requires { length past.now < 2 ^ 32 }
    ensures { result ≡ task_or_unposted task mark past.now }
{
    match tells(Role::Posted, mark, past) {
        None => Some(Fact::Unposted { task }),
        Some(fact) => Some(fact),
    }
}

/// Whether a post was accepted, if the entry is one.
fn reply_of(kind: &Kind) -> Option<bool>
    ensures { result ≡ reply_of kind.now }
{
    match *kind {
        Kind::Post { ok, .. } => Some(ok),
        Kind::Main { ok, .. } => Some(ok),
        Kind::JobPost { ok, .. } => Some(ok),
        _ => None,
    }
}

/// Whether the entry is a post with another reply than the one that may come.
pub fn is_answered_otherwise(kind: &Kind, named: Option<Kind>) -> bool
    ensures { result ≡ is_answered_otherwise kind.now named }
{
    match named {
        None => false,
        Some(next) => match (reply_of(kind), reply_of(&next)) {
            (Some(ok), Some(other)) => ok != other,
            _ => false,
        },
    }
}
