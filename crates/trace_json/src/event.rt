ghost use Rattle.std.specs.Prelude.{◌≡◌};
ghost use Rattle.serde_json.specs.Events.{SendsValue};
ghost use Rattle.trace_json.specs.Text.{name_text, phase_letter};
ghost use Rattle.trace_json.specs.Data.{event_data};

use arrayvec::ArrayString;
use itoa::Buffer;
use serde::{Described, Serialize, Serializer};
use task_base::{JobId, SeatNo, TaskId};

/// What a span is of, which is what a viewer shows as its name.
#[derive(Clone, Copy, Debug, PartialEq, Eq)]
pub enum EventName {
    /// A task, of the pool or of a main queue.
    Task { task: TaskId },
    /// An item of a job.
    Item { job: JobId, item: u32 },
}

/// Which end of its span an event is (the duration events of the Trace Event Format, key `ph`).
#[derive(Clone, Copy, Debug, PartialEq, Eq)]
pub enum EventPhase {
    /// The beginning, `B`.
    Begin,
    /// The end, `E`.
    End,
}

/// One event of a trace (the Trace Event Format, which Chromium's tracing writes).
#[derive(Clone, Copy, Debug, PartialEq, Eq)]
pub struct TraceEvent {
    /// What began or ended.
    pub name: EventName,
    /// Which of the two.
    pub phase: EventPhase,
    /// The seat that did it: a viewer shows it as a thread.
    pub seat: SeatNo,
    /// The place in the log, which stands for the time: places are no microseconds.
    pub place: u64,
}

// The name's text. The longest one has 30 bytes.
fn name_text(name: EventName) -> ArrayString<32>
    ensures { result.bytes ≡ name_text name }
{
    let mut text = ArrayString::new();
    match name {
        EventName::Task { task } => {
            text.push_str("task ");
            text.push_str(Buffer::new().format(task));
        }
        EventName::Item { job, item } => {
            text.push_str("job ");
            text.push_str(Buffer::new().format(job));
            text.push_str(" item ");
            text.push_str(Buffer::new().format(item));
        }
    }
    text
}

fn phase_letter(phase: EventPhase) -> &'static str
    ensures { result.now ≡ phase_letter phase }
{
    match phase {
        EventPhase::Begin => "B",
        EventPhase::End => "E",
    }
}

impl Described for TraceEvent {
    ghost writes = { λ event. SendsValue (event_data event) };
}

impl Serialize for TraceEvent {
    fn serialize<S: Serializer>(&self, out: &mut S) -> Result<(), S::Error> {
        out.begin_map(Some(5))?;
        out.key("name")?;
        out.str(name_text(self.name).as_str())?;
        out.key("ph")?;
        out.str(phase_letter(self.phase))?;
        out.key("pid")?;
        out.u64(0)?;
        out.key("tid")?;
        out.u64(u64::from(self.seat))?;
        out.key("ts")?;
        out.u64(self.place)?;
        out.end_map()
    }
}
