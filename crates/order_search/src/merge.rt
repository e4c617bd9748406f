ghost use Rattle.std.specs.Prelude.{◌≡◌, ◌==◌, ◌&&◌, ◌||◌, ℕ, ◌<◌, ◌≤◌, false, length, nat_lt, IfOk};
ghost use Rattle.order_model.specs.Orders.{own_events};
ghost use Rattle.order_search.specs.Seats.{known_time};
ghost use Rattle.order_search.specs.Search.{IsSoonest, task_of};
ghost use Rattle.order_search.specs.Walk.{IsTask};

use crate::tries::Tries;
use order_model::{Event, Span};
use std::alloc::{AllocError, Global};
use task_base::Script;

/// The events in the order in which they most likely came: each seat's in its own order, and at each step the next one of the seat
/// whose next one has the least latest time, or of those the one that was seen first. The error is out of memory.
pub(crate) fn merged(
    alloc: Global,
    script: &Script,
    tries: &Tries,
) -> Result<Vec<Event>, AllocError>
    requires task { IsTask (task_of script.now false tries.now) }
    ensures own { IfOk result (λ events. (seat : ℕ) → own_events seat events.items ≡ own_events seat tries.now.events.items) }
    ensures count { IfOk result (λ events. length events.items ≤ length tries.now.events.items) }
{
    let mut heads = Vec::from_slice(alloc, &tries.heads)?;
    let mut events = Vec::with_capacity(alloc, tries.events.len())?;
    for _ in 0..tries.events.len() {
        let seat = soonest_seat(&tries.events, &heads);
        if seat >= heads.len() {
            return Ok(events);
        }
        let index = heads[seat];
        events.push(tries.events[index])?;
        heads[seat] = tries.after[index];
    }
    Ok(events)
}

/// The seat whose head has the least latest time, or of those the one that was seen first; the number of seats where none has any.
fn soonest_seat(events: &[Event], heads: &[usize]) -> usize
    ensures { IsSoonest events.now heads.now result }
{
    let mut found = heads.len();
    let mut soonest = 0;
    let mut first = 0;
    for seat in 0..heads.len() {
        let head = heads[seat];
        if head < events.len() {
            let time = known_time(events[head].span);
            if found >= heads.len() || comes_before(time, head, soonest, first) {
                found = seat;
                soonest = time;
                first = head;
            }
        }
    }
    found
}

/// Whether the first time is the lesser one, or they are the same and the first place is.
fn comes_before(time: u64, place: usize, other: u64, other_place: usize) -> bool
    ensures { result ≡ (nat_lt time other || (time == other && nat_lt place other_place)) }
{
    time < other || (time == other && place < other_place)
}

/// The latest time at which an event may have come, and 0 where its writer had no clock.
fn known_time(span: Option<Span>) -> u64
    ensures { result ≡ known_time span }
{
    match span {
        Some(span) => span.to,
        None => 0,
    }
}
