ghost use Rattle.std.specs.Prelude.{◌≡◌, ◌≤◌, ◌++◌, suc, decimal, length, OnOk};
ghost use Rattle.serde_json.specs.Data.{Members};
ghost use Rattle.serde_json.specs.Events.{SendsMembers, SendsValue, members_len};
ghost use Rattle.full_trace.specs.Data.{event_data, mark_name, members_of, name_of, phase_of, phase_letter, rest_of};

use crate::args::Args;
use arrayvec::ArrayString;
use itoa::Buffer;
use serde::{Described, Serialize, Serializer};
use task_base::{Behaviour, JobId, Kind, Priority, QueueId, RunnerId, Scope, SeatNo, TaskId};

/// What an event of a trace says.
#[derive(Clone, Copy, Debug, PartialEq, Eq)]
pub enum What {
    /// The name of the process, which a viewer shows above all seats.
    Process,
    /// The name of the seat, which a viewer shows as a thread.
    Seat,
    /// A task of the pool begins, with the priority that its runner has there and the behaviour that the script declares.
    TaskBegins {
        task: TaskId,
        runner: RunnerId,
        priority: Priority,
        behaviour: Behaviour,
        found: u64,
    },
    /// A main task begins.
    MainBegins {
        task: TaskId,
        queue: QueueId,
        found: u64,
    },
    /// A task ends, of the pool or of a main queue.
    TaskEnds {
        task: TaskId,
        left: u64,
    },
    /// An item of a job begins, at a seat that is inside the job under the number `id`.
    ItemBegins {
        job: JobId,
        item: u32,
        id: u32,
        priority: Priority,
        behaviour: Behaviour,
    },
    /// An item of a job ends.
    ItemEnds {
        job: JobId,
        item: u32,
        value: u64,
    },
    /// The task that the seat runs opens a blocking scope.
    ScopeBegins {
        scope: Scope,
    },
    /// It closes that scope.
    ScopeEnds,
    /// A task is posted to a runner, with a delay in microseconds.
    Posts {
        task: TaskId,
        runner: RunnerId,
        delay: u64,
        ok: bool,
    },
    /// A task is posted to a main queue, with a delay in microseconds.
    MainPosts {
        task: TaskId,
        queue: QueueId,
        delay: u64,
        ok: bool,
    },
    /// A flow begins at the post of a task.
    FlowsFrom {
        task: TaskId,
    },
    /// It ends where the task is taken.
    FlowsTo {
        task: TaskId,
    },
    /// An entry that begins and ends nothing.
    Happens {
        kind: Kind,
    },
    /// How many tasks of the pool run, and how many were accepted and have not been taken.
    Work {
        running: u64,
        waiting: u64,
    },
}

/// How a viewer is to show an event (the phases of the Trace Event Format, key `ph`).
#[derive(Clone, Copy, Debug, PartialEq, Eq)]
pub(crate) enum Phase {
    /// A name, `M`.
    Name,
    /// The beginning of a span, `B`.
    Begin,
    /// The end of a span, `E`.
    End,
    /// A number over time, `C`.
    Count,
    /// A span without length, `X`, from which a flow may go on.
    Short,
    /// A mark across all seats, `i`.
    Mark,
    /// The beginning of a flow, `s`.
    From { task: TaskId },
    /// The end of a flow, `f`.
    To { task: TaskId },
}

/// One event of a trace.
#[derive(Clone, Copy, Debug, PartialEq, Eq)]
pub struct Event {
    /// The seat that did it.
    pub seat: SeatNo,
    /// The place in the log, which stands for the time.
    pub place: u64,
    /// What it says.
    pub what: What,
}

// What a viewer shows as the name of an event. The longest one has 30 bytes.
fn name_of(what: &What) -> ArrayString<32>
    ensures { result.bytes ≡ name_of what.now }
{
    match *what {
        What::TaskBegins { task, .. }
        | What::MainBegins { task, .. }
        | What::TaskEnds { task, .. } => numbered("task ", task),
        What::Posts { task, .. } | What::MainPosts { task, .. } => numbered("post ", task),
        What::ItemBegins { job, item, .. } | What::ItemEnds { job, item, .. } => {
            let mut text = numbered("job ", job);
            text.push_str(" item ");
            text.push_str(Buffer::new().format(item));
            text
        }
        What::Happens { kind } => alone(mark_name(&kind)),
        What::Process => alone("process_name"),
        What::Seat => alone("thread_name"),
        What::ScopeBegins { .. } | What::ScopeEnds => alone("scope"),
        What::FlowsFrom { .. } | What::FlowsTo { .. } => alone("post"),
        What::Work { .. } => alone("tasks of the pool"),
    }
}

// A short word, and a number.
fn numbered(word: &str, number: u32) -> ArrayString<32>
    requires { length word.now ≤ 5 }
    ensures name { result.bytes ≡ word.now ++ decimal number }
    ensures short { length result.bytes ≤ 15 }
{
    let mut text = alone(word);
    text.push_str(Buffer::new().format(number));
    text
}

// A word.
fn alone(word: &str) -> ArrayString<32>
    requires { length word.now ≤ 32 }
    ensures { result.bytes ≡ word.now }
{
    let mut text = ArrayString::new();
    text.push_str(word);
    text
}

// The name of a mark: the word of its entry in a log.
fn mark_name(kind: &Kind) -> &'static str
    ensures name { result.now ≡ mark_name kind.now }
    ensures short { length result.now ≤ 32 }
{
    match *kind {
        Kind::Tick { .. } => "tick",
        Kind::Policy { .. } => "policy",
        Kind::Reprio { .. } => "reprio",
        Kind::Fence { .. } => "fence",
        Kind::Unfence { .. } => "unfence",
        Kind::Vote { .. } => "vote",
        Kind::Rank { .. } => "rank",
        Kind::Close { .. } => "close",
        Kind::MainNone => "mainnone",
        Kind::JobPost { .. } => "startjob",
        Kind::JobCancel { .. } => "cancel",
        Kind::Cancelled { .. } => "cancelled",
        Kind::Joined { .. } => "joined",
        Kind::Idle => "idle",
        Kind::Shutdown => "shutdown",
        Kind::Done => "done",
        _ => "entry",
    }
}

// How a viewer is to show an event.
fn phase_of(what: &What) -> Phase
    ensures { result ≡ phase_of what.now }
{
    match *what {
        What::Process | What::Seat => Phase::Name,
        What::TaskBegins { .. }
        | What::MainBegins { .. }
        | What::ItemBegins { .. }
        | What::ScopeBegins { .. } => Phase::Begin,
        What::TaskEnds { .. } | What::ItemEnds { .. } | What::ScopeEnds => Phase::End,
        What::Posts { .. } | What::MainPosts { .. } => Phase::Short,
        What::FlowsFrom { task } => Phase::From { task },
        What::FlowsTo { task } => Phase::To { task },
        What::Happens { .. } => Phase::Mark,
        What::Work { .. } => Phase::Count,
    }
}

fn phase_letter(phase: Phase) -> &'static str
    ensures { result.now ≡ phase_letter phase }
{
    match phase {
        Phase::Name => "M",
        Phase::Begin => "B",
        Phase::End => "E",
        Phase::Count => "C",
        Phase::Short => "X",
        Phase::Mark => "i",
        Phase::From { .. } => "s",
        Phase::To { .. } => "f",
    }
}

impl Described for Event {
    ghost writes = { λ event. SendsValue (event_data event) };
}

impl Serialize for Event {
    fn serialize<S: Serializer>(&self, out: &mut S) -> Result<(), S::Error> {
        let phase = phase_of(&self.what);
        out.begin_map(Some(members_in(phase)))?;
        out.key("name")?;
        out.str(name_of(&self.what).as_str())?;
        out.key("ph")?;
        out.str(phase_letter(phase))?;
        self.send_rest(out, phase)
    }
}

// How many members an event of this phase has.
fn members_in(phase: Phase) -> usize
    ensures { (rest : Members) → members_len rest ≡ 4 → result ≡ suc (suc (members_len (members_of phase rest))) }
{
    match phase {
        Phase::Name | Phase::Begin | Phase::End | Phase::Count => 6,
        Phase::Short | Phase::Mark => 7,
        Phase::From { .. } => 8,
        Phase::To { .. } => 9,
    }
}

impl Event {
    // What stands behind an event's name and phase: what its phase asks for, and then who did it, when, and the arguments.
    fn send_rest<S: Serializer>(&self, out: &mut S, phase: Phase) -> Result<(), S::Error>
        ensures { OnOk result (SendsMembers (members_of phase (rest_of self.now)) (S.written out.old) (S.written out.new)) }
    {
        match phase {
            Phase::Name | Phase::Begin | Phase::End | Phase::Count => {}
            Phase::Short => {
                out.key("dur")?;
                out.u64(0)?;
            }
            Phase::Mark => {
                out.key("s")?;
                out.str("g")?;
            }
            Phase::From { task } => {
                out.key("cat")?;
                out.str("post")?;
                out.key("id")?;
                out.u64(u64::from(task))?;
            }
            Phase::To { task } => {
                out.key("cat")?;
                out.str("post")?;
                out.key("id")?;
                out.u64(u64::from(task))?;
                out.key("bp")?;
                out.str("e")?;
            }
        }
        self.send_place(out)
    }

    // Who did it, when, and the arguments.
    fn send_place<S: Serializer>(&self, out: &mut S) -> Result<(), S::Error>
        ensures { OnOk result (SendsMembers (rest_of self.now) (S.written out.old) (S.written out.new)) }
    {
        out.key("pid")?;
        out.u64(0)?;
        out.key("tid")?;
        out.u64(u64::from(self.seat))?;
        out.key("ts")?;
        out.u64(self.place)?;
        out.key("args")?;
        let args = Args {
            seat: self.seat,
            what: self.what,
        };
        args.serialize(out)?;
        out.end_map()
    }
}
