//! Clocks that are told by a situation: which moment a tick reads.
ghost use Rattle.std.specs.Prelude.{◌≡◌, ◌++◌, ℕ, List, filter, map, nat_lt};
ghost use Rattle.std.specs.List.{filter_map};
ghost use Rattle.list_laws.specs.Lists.{keep, least};
ghost use Rattle.log_count.specs.Clocks.{awaited_in, by_jumps, by_step};
ghost use Rattle.situation_steps.specs.Sources.{better_of};

use crate::parts::{SeatAt, Unripe};
use crate::state::Situation;
use task_base::LAST_MOMENT;

/// The lesser of two moments that may be there; the first where neither is less.
fn sooner(first: Option<u64>, second: Option<u64>) -> Option<u64>
    ensures { result ≡ better_of nat_lt first second }
{
    match (first, second) {
        (Some(one), Some(other)) => Some(if other < one { other } else { one }),
        (None, other) => other,
        (one, None) => one,
    }
}

/// A moment, where it is ahead of another.
fn ahead(moment: u64, awaited: Option<u64>) -> Option<u64>
    ensures { result ≡ keep (λ m. nat_lt moment m) awaited }
{
    match awaited {
        None => None,
        Some(awaited) => {
            if moment < awaited {
                Some(awaited)
            } else {
                None
            }
        }
    }
}

/// The least moment ahead at which one of the tasks becomes ripe, if there is one.
fn soonest_ripe(moment: u64, tasks: &[Unripe]) -> Option<u64>
    ensures { result ≡ least nat_lt (filter (λ m. nat_lt moment m) (map (λ u. u.ripe) tasks.now)) }
{
    let mut next = None;
    for task in tasks {
        let ripe = task.ripe;
        next = sooner(next, ahead(moment, Some(ripe)));
    }
    next
}

/// The least of a moment and of those ahead from which a seat's open scope counts, if there is one.
fn soonest_scope(moment: u64, seats: &[SeatAt], first: Option<u64>) -> Option<u64>
    ensures { (front : List ℕ) → first ≡ least nat_lt (filter (λ m. nat_lt moment m) front)
        → result ≡ least nat_lt (filter (λ m. nat_lt moment m) (front ++ filter_map (λ x. x.scope) seats.now)) }
{
    let mut next = first;
    for seat in seats {
        let scope = seat.scope;
        next = sooner(next, ahead(moment, scope));
    }
    next
}

impl Situation {
    /// The moment a step after the one before, both in microseconds, and at most the last moment of all.
    pub fn by_step(&self, step: u64) -> u64
        ensures { result ≡ by_step step self.now }
    {
        self.moment.saturating_add(step).min(LAST_MOMENT)
    }

    /// The next moment ahead that is awaited, in microseconds, and at most the last moment of all: at which a task becomes ripe, or
    /// an open scope starts to count. Where none is awaited, the moment before again.
    pub fn by_jumps(&self) -> u64
        ensures { result ≡ by_jumps self.now }
    {
        match self.next_awaited() {
            None => self.moment,
            Some(awaited) => awaited.min(LAST_MOMENT),
        }
    }

    /// The least moment ahead that is awaited, if one is.
    fn next_awaited(&self) -> Option<u64>
        ensures { result ≡ least (λ a b. nat_lt a b) (awaited_in self.now) }
    {
        let ripe = soonest_ripe(self.moment, self.unripe.as_slice());
        soonest_scope(self.moment, self.seats.as_slice(), ripe)
    }
}
