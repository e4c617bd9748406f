ghost use Rattle.std.specs.Prelude.{◌≡◌, ◌+◌, ◌++◌, IfOk, OnOk};
ghost use Rattle.serde_json.specs.Events.{SendsValue};
ghost use Rattle.full_trace.specs.Data.{trace_data};
ghost use Rattle.full_trace.specs.Shown.{event_if, events_at, names_of, trace_of};

use crate::course::{Course, flow_of, next_of};
use crate::event::{Event, What};
use serde::{Described, Serialize, Serializer};
use std::alloc::{AllocError, Global};
use task_base::{Entry, Script, SeatNo};

/// The events of a trace, in order.
#[derive(Drop)]
pub(crate) struct Trace {
    pub(crate) events: Vec<Event>,
}

impl Described for Trace {
    ghost writes = { λ trace. SendsValue (trace_data trace.events.items) };
}

impl Serialize for Trace {
    fn serialize<S: Serializer>(&self, out: &mut S) -> Result<(), S::Error> {
        out.begin_map(Some(1))?;
        out.key("traceEvents")?;
        self.events.serialize(out)?;
        out.end_map()
    }
}

/// The trace of the log. The error is want of memory.
pub(crate) fn trace_of(alloc: Global, script: &Script, log: &[Entry]) -> Result<Trace, AllocError>
    ensures { IfOk result (λ trace. trace.events.items ≡ trace_of script.now log.now) }
{
    let mut events = names_of(alloc, script.workers)?;
    let mut course = Course::new(alloc, script)?;
    for (place, entry) in log.iter().enumerate() {
        course.enter(&entry.kind);
        add_events(&mut events, script, &course, place as u64, entry)?;
    }
    Ok(Trace { events })
}

// The names of the process, of the driver and of the workers.
fn names_of(alloc: Global, workers: u32) -> Result<Vec<Event>, AllocError>
    ensures { IfOk result (λ events. events.items ≡ names_of (workers + 1)) }
{
    let mut events = Vec::new(alloc);
    add(&mut events, 0, 0, Some(What::Process))?;
    for seat in 0..u64::from(workers) + 1 {
        add(&mut events, seat as u32, 0, Some(What::Seat))?;
    }
    Ok(events)
}

// Adds the events of the entry at this place, by which the course has gone on.
#[tactic(auto, unfolding(crate::specs::Shown::events_at))]
fn add_events(
    events: &mut Vec<Event>,
    script: &Script,
    course: &Course,
    place: u64,
    entry: &Entry,
) -> Result<(), AllocError>
    ensures { OnOk result (events.new.items ≡ events.old.items ++ events_at script.now course.now place entry.now) }
{
    let Entry { seat, ref kind } = *entry;
    add(events, seat, place, Some(course.said(script, kind)))?;
    add(events, seat, place, flow_of(kind))?;
    add(events, seat, place, next_of(script, kind))?;
    add(events, seat, place, course.work(kind))
}

// Adds an event, where something is said.
fn add(
    events: &mut Vec<Event>,
    seat: SeatNo,
    place: u64,
    what: Option<What>,
) -> Result<(), AllocError>
    ensures { OnOk result (events.new.items ≡ events.old.items ++ event_if seat place what) }
{
    if let Some(what) = what {
        events.push(Event { seat, place, what })?;
    }
    Ok(())
}
