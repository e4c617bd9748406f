ghost use Rattle.std.specs.Prelude.{◌≡◌, ◌++◌, IfOk, OnOk};
ghost use Rattle.serde_json.specs.Events.{SendsValue};
ghost use Rattle.trace_json.specs.Trace.{ended_by, begun_by, events_at, event_if, trace_of};
ghost use Rattle.trace_json.specs.Data.{trace_data};

use crate::event::{EventName, EventPhase, TraceEvent};
use serde::{Described, Serialize, Serializer};
use std::alloc::{AllocError, Global};
use task_base::{Entry, Kind, SeatNo};

/// The events of a log, in order.
#[derive(Drop)]
pub(crate) struct Trace {
    pub(crate) events: Vec<TraceEvent>,
}

impl Described for Trace {
    ghost writes = { λ trace. SendsValue (trace_data trace.events.items) };
}

impl Serialize for Trace {
    fn serialize<S: Serializer>(&self, out: &mut S) -> Result<(), S::Error> {
        out.begin_map(Some(1))?;
        out.key("traceEvents")?;
        self.events.serialize(out)?;
        out.end_map()
    }
}

/// The trace of the log. The error is want of memory.
pub(crate) fn trace_of(alloc: Global, log: &[Entry]) -> Result<Trace, AllocError>
    ensures { IfOk result (λ trace. trace.events.items ≡ trace_of log.now) }
{
    let mut events = Vec::new(alloc);
    for (place, entry) in log.iter().enumerate() {
        add_events(&mut events, place as u64, entry)?;
    }
    Ok(Trace { events })
}

// Adds the events of the entry at this place.
fn add_events(events: &mut Vec<TraceEvent>, place: u64, entry: &Entry) -> Result<(), AllocError>
    ensures { OnOk result (events.new.items ≡ events.old.items ++ events_at place entry.now) }
{
    let Entry { seat, ref kind } = *entry;
    add_event(events, ended_by(kind), EventPhase::End, seat, place)?;
    add_event(events, begun_by(kind), EventPhase::Begin, seat, place)
}

// Adds an event, where there is a name for it.
fn add_event(
    events: &mut Vec<TraceEvent>,
    name: Option<EventName>,
    phase: EventPhase,
    seat: SeatNo,
    place: u64,
) -> Result<(), AllocError>
    ensures { OnOk result (events.new.items ≡ events.old.items ++ event_if name phase seat place) }
{
    if let Some(name) = name {
        events.push(TraceEvent {
            name,
            phase,
            seat,
            place,
        })?;
    }
    Ok(())
}

// What an entry of this kind ends.
fn ended_by(kind: &Kind) -> Option<EventName>
    ensures { result ≡ ended_by kind.now }
{
    match *kind {
        Kind::End { task, .. } | Kind::MainEnd { task, .. } => Some(EventName::Task { task }),
        Kind::JobStep { job, item, .. } => Some(EventName::Item { job, item }),
        _ => None,
    }
}

// What an entry of this kind begins.
fn begun_by(kind: &Kind) -> Option<EventName>
    ensures { result ≡ begun_by kind.now }
{
    match *kind {
        Kind::Take { task, .. } | Kind::MainTake { task, .. } => Some(EventName::Task { task }),
        Kind::JobTake { job, item, .. } => Some(EventName::Item { job, item }),
        Kind::JobStep { job, next, .. } => next.map(|item| EventName::Item { job, item }),
        _ => None,
    }
}
