ghost use Rattle.std.specs.Prelude.{◌≡◌, ◌++◌, IfOk, OnOk};
ghost use Rattle.context_text.specs.Json.{behaves_object, entry_object, fact_object, fact_objects, limit_name, limits_object};
ghost use Rattle.context_text.specs.Json.{priorities_object, role_name, room_object, single_object, unposted_object};
ghost use Rattle.context_text.specs.Json.{with_context, word_key};

use crate::plain::{add_around, add_around_two, add_worded};
use log_context::{Fact, Limit, Role};
use run_log::json_row;
use std::alloc::{AllocError, Global};
use task_base::{Behaviour, Entry, Place, Priority, RunnerId, SeatNo, TaskId};
use value_words::{behaviour_word, priority_word};

/// How many bytes end an object that stands on a line: its brace and the line feed.
const END: usize = 2;

/// What was told of a log, which is a JSON object and a line feed, with the key `context`: an array of an object for each fact.
/// The error is out of memory.
pub fn with_context(alloc: Global, told: &[u8], facts: &[Fact]) -> Result<Vec<u8>, AllocError>
    ensures { IfOk result (λ text. text.items ≡ with_context told.now facts.now) }
{
    let mut text = Vec::new(alloc);
    text.extend_from_slice(&told[..told.len().saturating_sub(END)])?;
    text.extend_from_slice(b",\"context\":[")?;
    add_objects(alloc, &mut text, facts)?;
    text.extend_from_slice(b"]}\n")?;
    Ok(text)
}

/// Adds the objects of facts, with commas between them. The error is out of memory.
fn add_objects(alloc: Global, text: &mut Vec<u8>, facts: &[Fact]) -> Result<(), AllocError>
    ensures { OnOk result (text.new.items ≡ text.old.items ++ fact_objects facts.now) }
{
    let Some((first, others)) = facts.split_first() else {
        return Ok(());
    };
    add_object(alloc, text, first)?;
    for other in others {
        text.extend_from_slice(b",")?;
        add_object(alloc, text, other)?;
    }
    Ok(())
}

/// Adds the object of a fact. The error is out of memory.
fn add_object(alloc: Global, text: &mut Vec<u8>, fact: &Fact) -> Result<(), AllocError>
    ensures { OnOk result (text.new.items ≡ text.old.items ++ fact_object fact.now) }
{
    match *fact {
        Fact::Stands { role, place, entry } => {
            add_entry(alloc, text, role_name(role), place, &entry)
        }
        Fact::Unposted { task } => add_unposted(text, task),
        Fact::Single { runner, seat } => add_single(text, runner, seat),
        Fact::Priorities {
            runner,
            priority,
            best,
            higher,
        } => add_priorities(text, runner, priority, best, higher),
        Fact::Limits {
            foreground,
            best_effort,
            background,
        } => add_limits(text, foreground, best_effort, background),
        Fact::Room {
            limit,
            running,
            most,
        } => add_room(text, limit, running, most),
        Fact::Behaves { runner, behaviour } => add_behaves(text, runner, behaviour),
        Fact::MayTake { place, entry } => add_entry(alloc, text, b"may_take", place, &entry),
    }
}

/// Adds the object of a task that is not posted. The error is out of memory.
fn add_unposted(text: &mut Vec<u8>, task: TaskId) -> Result<(), AllocError>
    ensures { OnOk result (text.new.items ≡ text.old.items ++ unposted_object task) }
{
    let before = b"{\"fact\":\"unposted\",\"task\":";
    add_around(text, before, u64::from(task), b"}")
}

/// Adds the object of the only seat that a runner has. The error is out of memory.
fn add_single(text: &mut Vec<u8>, runner: RunnerId, seat: SeatNo) -> Result<(), AllocError>
    ensures { OnOk result (text.new.items ≡ text.old.items ++ single_object runner seat) }
{
    let before = b"{\"fact\":\"single\",\"runner\":";
    let (first, second) = (u64::from(runner), u64::from(seat));
    add_around_two(text, before, first, b",\"seat\":", second, b"}")
}

/// Adds the object of two priorities. The error is out of memory.
fn add_priorities(
    text: &mut Vec<u8>,
    runner: RunnerId,
    priority: Priority,
    best: RunnerId,
    higher: Priority,
) -> Result<(), AllocError>
    ensures { OnOk result (text.new.items ≡ text.old.items ++ priorities_object runner priority best higher) }
{
    let before = b"{\"fact\":\"priorities\",\"runner\":";
    let word = priority_word(priority).as_bytes();
    let other = priority_word(higher).as_bytes();
    add_worded(text, before, runner, b",\"priority\":\"", word, b"\",")?;
    add_worded(text, b"\"best\":", best, b",\"higher\":\"", other, b"\"}")
}

/// Adds the object of the limits. The error is out of memory.
fn add_limits(
    text: &mut Vec<u8>,
    foreground: u32,
    best_effort: u32,
    background: u32,
) -> Result<(), AllocError>
    ensures { OnOk result (text.new.items ≡ text.old.items ++ limits_object foreground best_effort background) }
{
    let before = b"{\"fact\":\"limits\",\"foreground\":";
    let between = b",\"best_effort\":";
    let (first, second) = (u64::from(foreground), u64::from(best_effort));
    add_around_two(text, before, first, between, second, b",")?;
    add_around(text, b"\"background\":", u64::from(background), b"}")
}

/// Adds the object of what runs by a limit. The error is out of memory.
fn add_room(text: &mut Vec<u8>, limit: Limit, running: u64, most: u64) -> Result<(), AllocError>
    ensures { OnOk result (text.new.items ≡ text.old.items ++ room_object limit running most) }
{
    add_word(text, b"{\"fact\":\"room\",\"limit\":\"", limit_name(limit))?;
    add_around_two(text, b",\"running\":", running, b",\"most\":", most, b"}")
}

/// Adds the object of what shutdown does with a runner's tasks. The error is out of memory.
fn add_behaves(text: &mut Vec<u8>, runner: RunnerId, behaviour: Behaviour) -> Result<(), AllocError>
    ensures { OnOk result (text.new.items ≡ text.old.items ++ behaves_object runner behaviour) }
{
    let before = b"{\"fact\":\"behaves\",\"runner\":";
    let word = behaviour_word(behaviour).as_bytes();
    add_worded(text, before, runner, b",\"behaviour\":\"", word, b"\"}")
}

/// Adds the object of an entry that is this to the one that may not come, as a word. The error is out of memory.
fn add_entry(
    alloc: Global,
    text: &mut Vec<u8>,
    name: &[u8],
    place: Place,
    entry: &Entry,
) -> Result<(), AllocError>
    ensures { OnOk result (text.new.items ≡ text.old.items ++ entry_object name.now place entry.now) }
{
    add_word(text, b"{\"fact\":\"", name)?;
    text.extend_from_slice(b",\"entry\":")?;
    let row = json_row(alloc, u64::from(place), entry)?;
    text.extend_from_slice(row.as_bytes())?;
    text.extend_from_slice(b"}")
}

/// Adds a key, whose string has begun, with this word. The error is out of memory.
fn add_word(text: &mut Vec<u8>, key: &[u8], word: &[u8]) -> Result<(), AllocError>
    ensures { OnOk result (text.new.items ≡ text.old.items ++ word_key key.now word.now) }
{
    text.extend_from_slice(key)?;
    text.extend_from_slice(word)?;
    text.extend_from_slice(b"\"")
}

/// What an entry is to the one that may not come, as a word.
fn role_name(role: Role) -> &'static [u8]
    ensures { result.now ≡ role_name role }
{
    match role {
        Role::Itself => b"itself",
        Role::Taken => b"taken",
        Role::Posted => b"posted",
        Role::Runs => b"runs",
        Role::Due => b"due",
        Role::Left => b"left",
        Role::Busy => b"busy",
        Role::Elsewhere => b"elsewhere",
        Role::Ended => b"ended",
        Role::Policy => b"policy",
        Role::Shutdown => b"shutdown",
        Role::Moment => b"moment",
        Role::Cancelled => b"cancelled",
        Role::Fence => b"fence",
        Role::Off => b"off",
        Role::Closed => b"closed",
        Role::Before => b"before",
        Role::After => b"after",
        Role::Works => b"works",
        Role::Waiting => b"waiting",
        Role::Blocks => b"blocks",
    }
}

/// A limit, as a word.
fn limit_name(limit: Limit) -> &'static [u8]
    ensures { result.now ≡ limit_name limit }
{
    match limit {
        Limit::Foreground => b"foreground",
        Limit::BestEffort => b"best_effort",
        Limit::Background => b"background",
    }
}
