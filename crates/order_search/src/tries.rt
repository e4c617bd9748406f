ghost use Rattle.std.specs.Prelude.{ℕ, ◌≡◌, ◌+◌, ◌-◌, ◌^◌, ◌<◌, ◌≤◌, length, get_or, nat_le, min, All, IfOk};
ghost use Rattle.std.specs.List.{list_all};
ghost use Rattle.order_model.specs.declared.event.Event.{Event as AnyEvent};
ghost use Rattle.order_search.specs.Places.{IsAt};
ghost use Rattle.order_search.specs.Seats.{AreLinked, earliest, latest};

use order_model::{Event, Span};
use std::alloc::{AllocError, Global};

/// The events that are tried, in the order in which the search would place them, with their links: where the first one of each seat
/// stands; after each one, where the next one of its seat does; and the least of the latest times of each one and the later ones of
/// its seat. A place past the end says that there is none.
#[derive(Debug, Drop)]
pub(crate) struct Tries {
    pub events: Vec<Event>,
    pub heads: Vec<usize>,
    pub after: Vec<usize>,
    pub least: Vec<u64>,
}

impl Tries {
    /// These events, linked for this number of seats. The error is out of memory.
    pub(crate) fn of(alloc: Global, seats: usize, events: Vec<Event>) -> Result<Tries, AllocError>
        requires seated { All (λ (event : AnyEvent). event.entry.seat < seats) events.items }
        ensures events { IfOk result (λ tries. tries.events.items ≡ events.items) }
        ensures linked { IfOk result (λ tries. AreLinked seats events.items 0 tries.heads.items tries.after.items tries.least.items) }
    {
        let count = events.len();
        let heads = vec![in alloc; count; seats]?;
        let after = vec![in alloc; count; count]?;
        let least = vec![in alloc; u64::MAX; count]?;
        let mut tries = Tries {
            events,
            heads,
            after,
            least,
        };
        for k in 0..count {
            tries.link(count - 1 - k);
        }
        Ok(tries)
    }

    /// Links the event before those that are linked.
    fn link(&mut self, index: usize)
        requires within { index < length self.old.events.items }
        requires seated { All (λ (event : AnyEvent). event.entry.seat < length self.old.heads.items) self.old.events.items }
        requires linked { AreLinked (length self.old.heads.items) self.old.events.items (index + 1) self.old.heads.items self.old.after.items self.old.least.items }
        ensures events { self.new.events.items ≡ self.old.events.items }
        ensures linked { AreLinked (length self.old.heads.items) self.old.events.items index self.new.heads.items self.new.after.items self.new.least.items }
    {
        let event = self.events[index];
        let seat = event.entry.seat as usize;
        let next = self.heads[seat];
        let soonest = latest(event.span).min(time_at(&self.least, next));
        self.after[index] = next;
        self.least[index] = soonest;
        self.heads[seat] = index;
    }
}

/// The least latest time at a place, and the last time of all past the end.
pub(crate) fn time_at(least: &[u64], place: usize) -> u64
    ensures { result ≡ get_or least.now place (2 ^ 64 - 1) }
{
    if place < least.len() {
        least[place]
    } else {
        u64::MAX
    }
}

/// The latest time at which an event may have come, and the last one of all where its writer had no clock.
fn latest(span: Option<Span>) -> u64
    ensures { result ≡ latest span }
{
    match span {
        Some(span) => span.to,
        None => u64::MAX,
    }
}

/// The earliest time at which an event may have come, and the first one of all where its writer had no clock.
fn earliest(span: Option<Span>) -> u64
    ensures { result ≡ earliest span }
{
    match span {
        Some(span) => span.from,
        None => 0,
    }
}

/// Whether by the times none of what is left of each seat, from these heads on, came before the event.
pub(crate) fn are_later(least: &[u64], heads: &[usize], event: Event) -> bool
    ensures tells { result ≡ list_all (λ head. nat_le (earliest event.span) (get_or least.now head (2 ^ 64 - 1))) heads.now }
    ensures within { earliest event.span ≤ 2 ^ 64 - 1 }
{
    let from = earliest(event.span);
    heads.iter().all(|head| from <= time_at(least, *head))
}

/// Whether each seat's head stands past the end.
pub(crate) fn are_at_end(heads: &[usize], end: usize) -> bool
    ensures { result ≡ list_all (λ head. nat_le end head) heads.now }
{
    heads.iter().all(|head| end <= *head)
}
