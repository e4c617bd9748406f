ghost use Rattle.std.specs.Prelude.{◌≡◌, ℕ, ◌++◌, ◌≤◌, [], List, None, length, IfOk, OnOk};
ghost use Rattle.std.specs.Option.{option_to_list};
ghost use Rattle.task_base.specs.declared.limits.TheConstants.{MOST_BYTES, MOST_WORKERS};
ghost use Rattle.script_model.specs.Laws.Sound.{IsSound};
ghost use Rattle.hist_model.specs.Legal.{IsLegal};
ghost use Rattle.live_core.specs.Opening.{guest_runner};
ghost use Rattle.order_model.specs.Orders.{entries_of};
ghost use Rattle.order_model.specs.Plans.{plan_of};
ghost use Rattle.order_answer.specs.Said.{AreAgainst, IsAgainst, IsEndSaid, next_events, next_of};

use crate::said::log_of;
use env_explain::explain_log;
use explain_text::{open_text, told_text};
use line_text::Line;
use open_check::core_of;
use open_explain::explain_open;
use order_explain::stuck_at;
use order_model::{Event, PlanKind};
use order_text::stuck_text;
use std::alloc::{AllocError, Global};
use task_base::{Entry, Place, Rows, Script, SeatNo};

/// Adds what stands against going on after these events: of the next event of each seat that has one left, or else what is left to be
/// done. The error is out of memory.
pub(crate) fn add_against(
    alloc: Global,
    said: &mut Vec<u8>,
    script: &Script,
    kind: PlanKind,
    events: &[Event],
    rest: &[Event],
) -> Result<(), AllocError>
    requires plan { IsSound script.now }
    requires guest { kind ≡ PlanKind.Open → guest_runner script.now ≡ None }
    requires legal { IsLegal (plan_of kind script.now) (entries_of events.now) }
    requires few { length events.now ≤ MOST_BYTES }
    ensures { OnOk result ((lines : List ℕ) × IsAgainst (plan_of kind script.now) events.now rest.now lines × (said.new.items ≡ said.old.items ++ lines)) }
{
    if rest.is_empty() {
        add_end(alloc, said, script, kind, events)
    } else {
        let next = next_events(alloc, script.workers, rest)?;
        add_each(alloc, said, script, kind, events, rest, &next)
    }
}

/// Adds what is left to be done after all events, or of an open plan who is at work. The error is out of memory.
fn add_end(
    alloc: Global,
    said: &mut Vec<u8>,
    script: &Script,
    kind: PlanKind,
    events: &[Event],
) -> Result<(), AllocError>
    requires plan { IsSound script.now }
    requires guest { kind ≡ PlanKind.Open → guest_runner script.now ≡ None }
    requires few { length events.now ≤ MOST_BYTES }
    ensures { OnOk result ((lines : List ℕ) × IsAgainst (plan_of kind script.now) events.now [] lines × (said.new.items ≡ said.old.items ++ lines)) }
{
    let log = log_of(alloc, events)?;
    let line = end_line(alloc, script, kind, &log)?;
    said.extend_from_slice(&line)
}

/// What is left to be done after the entries, or of an open plan who is at work. The error is out of memory.
fn end_line(
    alloc: Global,
    script: &Script,
    kind: PlanKind,
    log: &Rows<Entry>,
) -> Result<Line, AllocError>
    requires plan { IsSound script.now }
    requires guest { kind ≡ PlanKind.Open → guest_runner script.now ≡ None }
    requires few { length log.now.items ≤ MOST_BYTES }
    ensures { IfOk result (λ line. IsEndSaid (plan_of kind script.now).is_open (plan_of kind script.now) log.now.items line.items) }
{
    match kind {
        PlanKind::Closed => {
            let told = explain_log(alloc, script, log)?;
            Ok(told_text(log.as_slice(), &told))
        }
        PlanKind::Open => {
            let mut live = core_of(alloc, script)?;
            let told = explain_open(alloc, script, &mut live, log.as_slice())?;
            Ok(open_text(log.as_slice(), &told))
        }
    }
}

/// Adds what stands against each of these. The error is out of memory.
fn add_each(
    alloc: Global,
    said: &mut Vec<u8>,
    script: &Script,
    kind: PlanKind,
    events: &[Event],
    rest: &[Event],
    next: &[Event],
) -> Result<(), AllocError>
    requires plan { IsSound script.now }
    requires guest { kind ≡ PlanKind.Open → guest_runner script.now ≡ None }
    requires legal { IsLegal (plan_of kind script.now) (entries_of events.now) }
    requires few { length events.now ≤ MOST_BYTES }
    ensures { OnOk result ((lines : List ℕ) × AreAgainst (plan_of kind script.now) events.now rest.now next.now lines
        × (said.new.items ≡ said.old.items ++ lines)) }
{
    for event in next {
        let stuck = stuck_at(alloc, script, kind, events, rest, event)?;
        stuck_text(said, events.len() as Place, event, &stuck)?;
    }
    Ok(())
}

/// Of each seat the first of these events, in the order of the seats. The error is out of memory.
fn next_events(alloc: Global, workers: u32, rest: &[Event]) -> Result<Vec<Event>, AllocError>
    requires { workers ≤ MOST_WORKERS }
    ensures { IfOk result (λ next. next.items ≡ next_events workers rest.now) }
{
    let mut next = Vec::new(alloc);
    for seat in 0..workers + 1 {
        push_some(&mut next, next_of(rest, seat))?;
    }
    Ok(next)
}

/// Adds an event, if there is one. The error is out of memory.
fn push_some(events: &mut Vec<Event>, event: Option<Event>) -> Result<(), AllocError>
    ensures { OnOk result (events.new.items ≡ events.old.items ++ option_to_list event) }
{
    match event {
        None => {}
        Some(event) => events.push(event)?,
    }
    Ok(())
}

/// The first of these events that is of this seat.
fn next_of(rest: &[Event], seat: SeatNo) -> Option<Event>
    ensures { result ≡ next_of seat rest.now }
{
    for event in rest {
        if event.entry.seat == seat {
            return Some(*event);
        }
    }
    None
}
