ghost use Rattle.std.specs.Prelude.{◌≡◌, ◌+◌, ◌<◌, ◌++◌, ◌∷◌, [], Contains, IfOk, IfSome, None, length, true};
ghost use Rattle.script_model.specs.Laws.Sound.{IsSound};
ghost use Rattle.hist_model.specs.Legal.{IsLegal};
ghost use Rattle.live_core.specs.Opening.{guest_runner};
ghost use Rattle.order_model.specs.Orders.{entries_of, is_before, may_precede};
ghost use Rattle.order_model.specs.Plans.{plan_of};
ghost use Rattle.order_explain.specs.Stuck.{IsStuck, stuck_open, stuck_told};

use env_explain::explain_prefix;
use next_entry::{Cause, Explanation, OpenCause, OpenTold};
use open_check::core_of;
use open_explain::explain_open_prefix;
use order_model::{Event, PlanKind};
use std::alloc::{AllocError, Global};
use task_base::{Entry, Rows, Script};

/// What stands against an event after the beginning of an order.
#[derive(Clone, Copy, Debug)]
pub enum Stuck {
    /// By the times this one came before it, which is left.
    Waits { other: Event },
    /// The times allow it, and the rules don't, for this cause.
    Barred { cause: Cause },
    /// The times allow it, and the rules of an open plan don't, for this cause.
    OpenBarred { cause: OpenCause },
    /// Nothing stands against it.
    Free,
}

/// What stands against an event after these, which are the beginning of an order, where the rest is left. It replays the beginning,
/// and takes time and memory that grow with it. The error is out of memory.
pub fn stuck_at(
    alloc: Global,
    script: &Script,
    kind: PlanKind,
    events: &[Event],
    rest: &[Event],
    event: &Event,
) -> Result<Stuck, AllocError>
    requires plan { IsSound script.now }
    requires guest { kind ≡ PlanKind.Open → guest_runner script.now ≡ None }
    requires legal { IsLegal (plan_of kind script.now) (entries_of events.now) }
    requires few { kind ≡ PlanKind.Open → length events.now + 1 < u32.MAX }
    ensures { IfOk result (IsStuck (plan_of kind script.now) events.now rest.now event.now) }
{
    if let Some(other) = first_before(rest, event) {
        return Ok(Stuck::Waits { other });
    }
    let log = log_with(alloc, events, event)?;
    match kind {
        PlanKind::Closed => {
            let told = explain_prefix(alloc, script, &log)?;
            Ok(stuck_told(&told))
        }
        PlanKind::Open => {
            let mut live = core_of(alloc, script)?;
            let told = explain_open_prefix(script, &mut live, log.as_slice());
            Ok(stuck_open(&told))
        }
    }
}

// What is said of the last entry of a log, whose entries before it are legal.
fn stuck_told(told: &Explanation) -> Stuck
    ensures { result ≡ stuck_told told.now }
{
    match told {
        Explanation::Barred { cause, .. } => Stuck::Barred { cause: *cause },
        _ => Stuck::Free,
    }
}

// The same of a log of an open plan.
fn stuck_open(told: &OpenTold) -> Stuck
    ensures { result ≡ stuck_open told.now }
{
    match told {
        OpenTold::Barred { cause, .. } => Stuck::OpenBarred { cause: *cause },
        _ => Stuck::Free,
    }
}

// The first of these events that came before this one by the times.
fn first_before(rest: &[Event], event: &Event) -> Option<Event>
    ensures none { result ≡ None → may_precede event.now rest.now ≡ true }
    ensures found { IfSome result (λ other. Contains rest.now other × (is_before other event.now ≡ true)) }
{
    for i in 0..rest.len() {
        if is_before(&rest[i], event) {
            return Some(rest[i]);
        }
    }
    None
}

// Whether by their times the one event came before the other.
fn is_before(first: &Event, second: &Event) -> bool
    ensures { result ≡ is_before first.now second.now }
{
    match (first.span, second.span) {
        (Some(first), Some(second)) => first.to < second.from,
        _ => false,
    }
}

// The entries of the events, and that of this one after them.
fn log_with(alloc: Global, events: &[Event], event: &Event) -> Result<Rows<Entry>, AllocError>
    ensures { IfOk result (λ log. log.items ≡ entries_of events.now ++ event.now.entry ∷ []) }
{
    let mut log = Vec::new(alloc);
    for event in events {
        log.push(event.entry)?;
    }
    log.push(event.entry)?;
    Ok(Rows::from_vec(log))
}
