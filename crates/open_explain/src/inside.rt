//! How many seats are inside a job.
ghost use Rattle.std.specs.Prelude.{◌≡◌, ◌==◌, ◌<◌, length};
ghost use Rattle.list_laws.specs.Lists.{holds_of};
ghost use Rattle.task_model.specs.Seats.{holding, inside};
ghost use Rattle.next_entry.specs.Ranks.{inside_of};

use next_entry::holding;
use task_base::{Entry, JobId, Kind, Script, SeatNo};

/// How many seats are inside the job of which the entry takes an item.
pub(crate) fn inside_of(script: &Script, past: &[Entry], kind: &Kind) -> usize
    requires { script.now.workers < u32.MAX }
    ensures { result ≡ inside_of script.now past.now kind.now }
{
    match *kind {
        Kind::JobTake { job, .. } => seats_inside(script, past, job),
        _ => 0,
    }
}

/// How many seats are inside a job.
#[tactic(auto, unfolding(task_model::specs::Seats::inside))]
fn seats_inside(script: &Script, past: &[Entry], job: JobId) -> usize
    requires { script.now.workers < u32.MAX }
    ensures { result ≡ length (inside script.now past.now job) }
{
    let mut seats = 0;
    for seat in 0..script.workers + 1 {
        if is_inside(past, seat, job) {
            seats += 1;
        }
    }
    seats
}

/// Whether a seat is inside a job.
fn is_inside(past: &[Entry], seat: SeatNo, job: JobId) -> bool
    ensures { result ≡ holds_of (λ h. h.job == job) (holding past.now seat) }
{
    match holding(past, seat) {
        Some(held) => held.job == job,
        None => false,
    }
}
