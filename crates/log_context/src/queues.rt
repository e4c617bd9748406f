ghost use Rattle.std.specs.Prelude.{◌≡◌, ◌<◌, ◌^◌, length};
ghost use Rattle.log_context.specs.Queues.{closed, fence, is_set, queue_of, stays_off, voted_off, voter_of};

use crate::fact::{Fact, Role};
use crate::mark::Mark;
use crate::seen::{Seen, last_marked, stands_as, tells};
use task_base::{Entry, Kind, QueueId};

/// The main queue that the entry posts to or takes from.
fn queue_of(kind: &Kind) -> Option<QueueId>
    ensures { result ≡ queue_of kind.now }
{
    match *kind {
        Kind::Main { queue, .. } => Some(queue),
        Kind::MainTake { queue, .. } => Some(queue),
        _ => None,
    }
}

/// Where the entry's main queue was closed.
pub fn closed(past: &[Entry], kind: &Kind) -> Option<Fact>
    requires { length past.now < 2 ^ 32 }
    ensures { result ≡ closed past.now kind.now }
{
    let queue = queue_of(kind)?;
    tells(Role::Closed, Mark::Close { queue }, past)
}

/// Whether the entry sets a fence.
fn is_set(kind: &Kind) -> bool
    ensures { result ≡ is_set kind.now }
{
    matches!(*kind, Kind::Fence { .. })
}

/// Where the fence was set that the main queue has from which the entry takes.
pub fn fence(past: &[Entry], kind: &Kind) -> Option<Fact>
    requires { length past.now < 2 ^ 32 }
    ensures { result ≡ fence past.now kind.now }
{
    match *kind {
        Kind::MainTake { queue, .. } => {
            let last = last_marked(Mark::Fence { queue }, past)?;
            if is_set(&last.entry.kind) {
                stands_as(Role::Fence, Some(last))
            } else {
                None
            }
        }
        _ => None,
    }
}

/// The voter that votes.
fn voter_of(kind: &Kind) -> Option<u8>
    ensures { result ≡ voter_of kind.now }
{
    match *kind {
        Kind::Vote { voter, .. } => Some(voter),
        _ => None,
    }
}

/// Whether the voter of this vote has not voted since.
fn stays_off(past: &[Entry], queue: QueueId, seen: &Seen) -> bool
    requires { length past.now < 2 ^ 32 }
    ensures { result ≡ stays_off past.now queue seen.now }
{
    match voter_of(&seen.entry.kind) {
        None => false,
        Some(voter) => match last_marked(Mark::Vote { queue, voter }, past) {
            None => false,
            Some(last) => last.place == seen.place,
        },
    }
}

/// Where a voter of the main queue from which the entry takes was switched off last, where it is still off.
pub fn voted_off(past: &[Entry], kind: &Kind) -> Option<Fact>
    requires { length past.now < 2 ^ 32 }
    ensures { result ≡ voted_off past.now kind.now }
{
    match *kind {
        Kind::MainTake { queue, .. } => {
            let last = last_marked(Mark::Off { queue }, past)?;
            if stays_off(past, queue, &last) {
                stands_as(Role::Off, Some(last))
            } else {
                None
            }
        }
        _ => None,
    }
}
