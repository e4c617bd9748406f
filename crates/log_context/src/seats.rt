ghost use Rattle.std.specs.Prelude.{◌≡◌, ◌<◌, ◌^◌, length};
ghost use Rattle.log_context.specs.Seats.{busy, elsewhere, ended_or_taken, is_at_work, starts_work};

use crate::fact::{Fact, Role};
use crate::mark::Mark;
use crate::seen::{Seen, last_marked, stands_as, tells};
use task_base::{Entry, Kind, SeatNo, TaskId};

/// Whether the entry starts a task, or enters a job.
fn starts_work(kind: &Kind) -> bool
    ensures { result ≡ starts_work kind.now }
{
    matches!(
        *kind,
        Kind::Take { .. } | Kind::MainTake { .. } | Kind::JobTake { .. }
    )
}

/// Where the seat started what it is at work with, which is this to the entry.
pub fn busy(role: Role, past: &[Entry], seat: SeatNo) -> Option<Fact>
    requires { length past.now < 2 ^ 32 }
    ensures { result ≡ busy role past.now seat }
{
    let last = last_marked(Mark::Work { seat }, past)?;
    if starts_work(&last.entry.kind) {
        stands_as(role, Some(last))
    } else {
        None
    }
}

/// Whether a seat is still at work with what it started by this entry.
pub fn is_at_work(past: &[Entry], seen: &Seen) -> bool
    requires { length past.now < 2 ^ 32 }
    ensures { result ≡ is_at_work past.now seen.now }
{
    match last_marked(
        Mark::Work {
            seat: seen.entry.seat,
        },
        past,
    ) {
        None => false,
        Some(last) => last.place == seen.place,
    }
}

/// Where the task that makes the entry was ended before, or taken by another seat.
pub fn elsewhere(past: &[Entry], seat: SeatNo, kind: &Kind) -> Option<Fact>
    requires { length past.now < 2 ^ 32 }
    ensures { result ≡ elsewhere past.now seat kind.now }
{
    match *kind {
        Kind::End { task, .. } => ended_or_taken(past, seat, task),
        Kind::Enter { task, .. } => ended_or_taken(past, seat, task),
        Kind::Leave { task } => ended_or_taken(past, seat, task),
        _ => None,
    }
}

/// Where a task was ended, or else taken by another seat.
fn ended_or_taken(past: &[Entry], seat: SeatNo, task: TaskId) -> Option<Fact>
    requires { length past.now < 2 ^ 32 }
    ensures { result ≡ ended_or_taken past.now seat task }
{
    match tells(Role::Ended, Mark::End { task }, past) {
        Some(ended) => Some(ended),
        None => {
            let taken = last_marked(Mark::Take { task }, past)?;
            if taken.entry.seat == seat {
                None
            } else {
                stands_as(Role::Elsewhere, Some(taken))
            }
        }
    }
}
