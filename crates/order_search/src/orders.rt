ghost use Rattle.std.specs.Prelude.{◌≡◌, ◌^◌, ◌<◌, ◌≤◌, ℕ, Bool, true, false, All, length, nat_le, None, IfOk};
ghost use Rattle.std.specs.List.{list_all};
ghost use Rattle.script_model.specs.Laws.Sound.{IsSound};
ghost use Rattle.live_core.specs.Opening.{guest_runner};
ghost use Rattle.order_model.specs.declared.event.Event.{Event as AnyEvent};
ghost use Rattle.order_model.specs.Orders.{own_events};
ghost use Rattle.order_model.specs.Plans.{plan_of};
ghost use Rattle.order_search.specs.Arranged.{HasNoOrder, IsArranged};
ghost use Rattle.order_search.specs.Search.{task_of};
ghost use Rattle.order_search.specs.Walk.{IsTask};

use crate::arranged::Arranged;
use crate::merge::merged;
use crate::search::search;
use crate::tries::Tries;
use order_model::{Event, PlanKind};
use std::alloc::{AllocError, Global};
use task_base::{Script, SeatNo};

/// Looks for an order of events that each seat saw for itself: one that keeps each seat's own order, that their times allow, and
/// whose entries are a run of the script, or, of its open plan, a log after which nobody is at work; with `prefix`, a beginning of
/// one.
///
/// It places events one by one. The order in which they are tried is a merge of the seats: always the next event of the seat whose
/// next one has the least latest time, or of those the one that stands first among the seen. Where nothing goes on, it goes back. It
/// takes `most` steps at most, each of which tries an event or takes one off. Each event has to be of a seat of the script, as
/// `are_seated` tells, and no runner of an open plan bound to its last seat. The error is out of memory.
pub fn arrange(
    alloc: Global,
    script: &Script,
    kind: PlanKind,
    prefix: bool,
    seen: &[Event],
    most: u64,
) -> Result<Arranged, AllocError>
    requires plan { IsSound script.now }
    requires guest { kind ≡ PlanKind.Open → guest_runner script.now ≡ None }
    requires few { length seen.now < 2 ^ 32 }
    requires seated { All (λ (event : AnyEvent). event.entry.seat ≤ script.now.workers) seen.now }
    ensures { IfOk result (λ found. IsArranged (plan_of kind script.now) prefix seen.now found) }
{
    let tries = tries_of(alloc, script, seen)?;
    let found = search(alloc, script, kind, prefix, &tries, most)?;
    Ok(found)
}

/// The events in the order in which they are tried. The error is out of memory.
fn tries_of(alloc: Global, script: &Script, seen: &[Event]) -> Result<Tries, AllocError>
    requires few { length seen.now < 2 ^ 32 }
    requires seated { All (λ (event : AnyEvent). event.entry.seat ≤ script.now.workers) seen.now }
    ensures task { IfOk result (λ tries. (prefix : Bool) → IsTask (task_of script.now prefix tries)) }
    ensures own { IfOk result (λ tries. (seat : ℕ) → own_events seat tries.events.items ≡ own_events seat seen.now) }
{
    let seats = script.workers as usize + 1;
    let copy = Vec::from_slice(alloc, seen)?;
    let as_seen = Tries::of(alloc, seats, copy)?;
    let events = merged(alloc, script, &as_seen)?;
    let tries = Tries::of(alloc, seats, events)?;
    Ok(tries)
}

/// Whether each event is of a seat of the script. Where one is not, there is no order.
pub fn are_seated(script: &Script, seen: &[Event]) -> bool
    ensures tells { result ≡ list_all (λ (event : AnyEvent). nat_le event.entry.seat script.now.workers) seen.now }
    ensures seated { result ≡ true → All (λ (event : AnyEvent). event.entry.seat ≤ script.now.workers) seen.now }
    ensures none { result ≡ false → (kind : PlanKind) (prefix : Bool) → HasNoOrder (plan_of kind script.now) prefix seen.now }
{
    are_below(seen, script.workers)
}

/// Whether no event is of a seat above the last one.
fn are_below(seen: &[Event], last: SeatNo) -> bool
    ensures { result ≡ list_all (λ (event : AnyEvent). nat_le event.entry.seat last) seen.now }
{
    seen.iter().all(|event| event.entry.seat <= last)
}
