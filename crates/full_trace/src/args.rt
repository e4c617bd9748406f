ghost use Rattle.std.specs.Prelude.{◌≡◌, OnOk};
ghost use Rattle.serde_json.specs.Data.{object, no_members};
ghost use Rattle.serde_json.specs.Events.{SendsValue};
ghost use Rattle.full_trace.specs.Args.{args_data, ending_word, item_data, mark_data, of_number, of_word, post_data, seat_name, task_data, vote_data};

use crate::event::What;
use arrayvec::ArrayString;
use itoa::Buffer;
use serde::{Described, Serialize, Serializer};
use task_base::{JobReply, Kind, QueueId, SeatNo};
use value_words::{
    behaviour_word, fence_word, policy_word, priority_word, reply_word, scope_word, vote_word,
};

/// The arguments of an event: what a viewer shows of it beside its name.
#[derive(Drop)]
pub(crate) struct Args {
    pub(crate) seat: SeatNo,
    pub(crate) what: What,
}

impl Described for Args {
    ghost writes = { λ args. SendsValue (args_data args.seat args.what) };
}

impl Serialize for Args {
    fn serialize<S: Serializer>(&self, out: &mut S) -> Result<(), S::Error> {
        match self.what {
            What::Process => send_word(out, "name", "taskenv"),
            What::Seat => send_word(out, "name", seat_name(self.seat).as_str()),
            What::TaskBegins {
                runner,
                priority,
                behaviour,
                found,
                ..
            } => send_task(
                out,
                u64::from(runner),
                priority_word(priority),
                behaviour_word(behaviour),
                found,
            ),
            What::ItemBegins {
                id,
                priority,
                behaviour,
                ..
            } => send_item(
                out,
                u64::from(id),
                priority_word(priority),
                behaviour_word(behaviour),
            ),
            What::MainBegins { queue, found, .. } => {
                send_numbers(out, "queue", u64::from(queue), "found", found)
            }
            What::TaskEnds { left, .. } => send_number(out, "left", left),
            What::ItemEnds { value, .. } => send_number(out, "value", value),
            What::ScopeBegins { scope } => send_word(out, "scope", scope_word(scope)),
            What::Posts {
                runner,
                delay,
                ok,
                ..
            } => send_post(out, "runner", runner, delay, ok),
            What::MainPosts {
                queue,
                delay,
                ok,
                ..
            } => send_post(out, "queue", queue, delay, ok),
            What::Work { running, waiting } => {
                send_numbers(out, "running", running, "waiting", waiting)
            }
            What::Happens { kind } => send_mark(out, &kind),
            What::ScopeEnds | What::FlowsFrom { .. } | What::FlowsTo { .. } => send_nothing(out),
        }
    }
}

// The name of a seat. The longest one has 17 bytes.
fn seat_name(seat: SeatNo) -> ArrayString<32>
    ensures { result.bytes ≡ seat_name seat }
{
    let mut text = ArrayString::new();
    if seat == 0 {
        text.push_str("driver");
    } else {
        text.push_str("worker ");
        text.push_str(Buffer::new().format(seat));
    }
    text
}

// The arguments of a mark: those of its entry.
fn send_mark<S: Serializer>(out: &mut S, kind: &Kind) -> Result<(), S::Error>
    ensures { OnOk result (SendsValue (mark_data kind.now) (S.written out.old) (S.written out.new)) }
{
    match *kind {
        Kind::Tick { now } => send_number(out, "moment", now),
        Kind::Policy { policy } => send_word(out, "policy", policy_word(policy)),
        Kind::Reprio { runner, priority } => {
            send_both(out, "runner", runner, "priority", priority_word(priority))
        }
        Kind::Fence { queue, at } => send_both(out, "queue", queue, "at", fence_word(at)),
        Kind::Unfence { queue } | Kind::Close { queue } => {
            send_number(out, "queue", u64::from(queue))
        }
        Kind::Vote { queue, voter, on } => send_vote(out, queue, voter, on),
        Kind::Rank { queue, class } => {
            send_numbers(out, "queue", u64::from(queue), "class", u64::from(class))
        }
        Kind::JobPost { job, ok } => send_both(out, "job", job, "reply", reply_word(ok)),
        Kind::JobCancel { job } | Kind::Cancelled { job } => {
            send_number(out, "job", u64::from(job))
        }
        Kind::Joined {
            job,
            reply: JobReply::Finished { sum },
        } => send_numbers(out, "job", u64::from(job), "sum", sum),
        Kind::Joined { job, reply } => send_both(out, "job", job, "reply", ending_word(reply)),
        _ => send_nothing(out),
    }
}

// How a job that is joined has ended, in a word.
fn ending_word(reply: JobReply) -> &'static str
    ensures { result.now ≡ ending_word reply }
{
    match reply {
        JobReply::Refused => "refused",
        JobReply::Finished { .. } => "done",
        JobReply::Cancelled => "cancelled",
        JobReply::Stopped => "stopped",
    }
}

// An object without members.
fn send_nothing<S: Serializer>(out: &mut S) -> Result<(), S::Error>
    ensures { OnOk result (SendsValue (object no_members) (S.written out.old) (S.written out.new)) }
{
    out.begin_map(Some(0))?;
    out.end_map()
}

// An object of a number.
fn send_number<S: Serializer>(out: &mut S, key: &str, value: u64) -> Result<(), S::Error>
    ensures { OnOk result (SendsValue (object (of_number key.now value no_members)) (S.written out.old) (S.written out.new)) }
{
    out.begin_map(Some(1))?;
    out.key(key)?;
    out.u64(value)?;
    out.end_map()
}

// An object of a word.
fn send_word<S: Serializer>(out: &mut S, key: &str, word: &str) -> Result<(), S::Error>
    ensures { OnOk result (SendsValue (object (of_word key.now word.now no_members)) (S.written out.old) (S.written out.new)) }
{
    out.begin_map(Some(1))?;
    out.key(key)?;
    out.str(word)?;
    out.end_map()
}

// An object of two numbers.
fn send_numbers<S: Serializer>(
    out: &mut S,
    first: &str,
    one: u64,
    second: &str,
    other: u64,
) -> Result<(), S::Error>
    ensures { OnOk result (SendsValue (object (of_number first.now one (of_number second.now other no_members))) (S.written out.old) (S.written out.new)) }
{
    out.begin_map(Some(2))?;
    out.key(first)?;
    out.u64(one)?;
    out.key(second)?;
    out.u64(other)?;
    out.end_map()
}

// An object of a number and a word.
fn send_both<S: Serializer>(
    out: &mut S,
    first: &str,
    number: u32,
    second: &str,
    word: &str,
) -> Result<(), S::Error>
    ensures { OnOk result (SendsValue (object (of_number first.now number (of_word second.now word.now no_members))) (S.written out.old) (S.written out.new)) }
{
    out.begin_map(Some(2))?;
    out.key(first)?;
    out.u64(u64::from(number))?;
    out.key(second)?;
    out.str(word)?;
    out.end_map()
}

// What a task of the pool begins with.
fn send_task<S: Serializer>(
    out: &mut S,
    runner: u64,
    priority: &str,
    behaviour: &str,
    found: u64,
) -> Result<(), S::Error>
    ensures { OnOk result (SendsValue (task_data runner priority.now behaviour.now found) (S.written out.old) (S.written out.new)) }
{
    out.begin_map(Some(4))?;
    out.key("runner")?;
    out.u64(runner)?;
    out.key("priority")?;
    out.str(priority)?;
    out.key("behaviour")?;
    out.str(behaviour)?;
    out.key("found")?;
    out.u64(found)?;
    out.end_map()
}

// What an item of a job begins with.
fn send_item<S: Serializer>(
    out: &mut S,
    id: u64,
    priority: &str,
    behaviour: &str,
) -> Result<(), S::Error>
    ensures { OnOk result (SendsValue (item_data id priority.now behaviour.now) (S.written out.old) (S.written out.new)) }
{
    out.begin_map(Some(3))?;
    out.key("id")?;
    out.u64(id)?;
    out.key("priority")?;
    out.str(priority)?;
    out.key("behaviour")?;
    out.str(behaviour)?;
    out.end_map()
}

// What a task is posted with, to a runner or a main queue.
fn send_post<S: Serializer>(
    out: &mut S,
    home: &str,
    number: u32,
    delay: u64,
    ok: bool,
) -> Result<(), S::Error>
    ensures { OnOk result (SendsValue (post_data home.now number delay ok) (S.written out.old) (S.written out.new)) }
{
    out.begin_map(Some(3))?;
    out.key(home)?;
    out.u64(u64::from(number))?;
    out.key("delay")?;
    out.u64(delay)?;
    out.key("reply")?;
    out.str(reply_word(ok))?;
    out.end_map()
}

// A vote on a main queue.
fn send_vote<S: Serializer>(
    out: &mut S,
    queue: QueueId,
    voter: u8,
    on: bool,
) -> Result<(), S::Error>
    ensures { OnOk result (SendsValue (vote_data queue voter on) (S.written out.old) (S.written out.new)) }
{
    out.begin_map(Some(3))?;
    out.key("queue")?;
    out.u64(u64::from(queue))?;
    out.key("voter")?;
    out.u64(u64::from(voter))?;
    out.key("vote")?;
    out.str(vote_word(on))?;
    out.end_map()
}
