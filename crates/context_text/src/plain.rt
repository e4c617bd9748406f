ghost use Rattle.std.specs.Prelude.{◌≡◌, ◌++◌, flat_map, IfOk, OnOk};
ghost use Rattle.log_model.specs.LogText.{line_of};
ghost use Rattle.context_text.specs.Plain.{around, around_two, behaves_line, fact_line, limit_words, limits_line, priorities_line, role_words};
ghost use Rattle.context_text.specs.Plain.{room_line, single_line, unposted_line, with_lines, worded};

use itoa::Buffer;
use log_context::{Fact, Limit, Role};
use std::alloc::{AllocError, Global};
use task_base::{Behaviour, Entry, Place, Priority, RunnerId, SeatNo, TaskId};
use value_words::{behaviour_word, priority_word};

/// What was told of a log, and after it a line for each fact. The error is out of memory.
pub fn with_lines(alloc: Global, told: &[u8], facts: &[Fact]) -> Result<Vec<u8>, AllocError>
    ensures { IfOk result (λ text. text.items ≡ with_lines told.now facts.now) }
{
    let mut text = Vec::new(alloc);
    text.extend_from_slice(told)?;
    add_facts(&mut text, facts)?;
    Ok(text)
}

/// Adds a line for each fact. The error is out of memory.
fn add_facts(text: &mut Vec<u8>, facts: &[Fact]) -> Result<(), AllocError>
    ensures { OnOk result (text.new.items ≡ text.old.items ++ flat_map fact_line facts.now) }
{
    for fact in facts {
        add_fact(text, fact)?;
    }
    Ok(())
}

/// Adds the line of a fact. The error is out of memory.
fn add_fact(text: &mut Vec<u8>, fact: &Fact) -> Result<(), AllocError>
    ensures { OnOk result (text.new.items ≡ text.old.items ++ fact_line fact.now) }
{
    match *fact {
        Fact::Stands { role, place, entry } => add_entry(text, role_words(role), place, &entry),
        Fact::Unposted { task } => add_unposted(text, task),
        Fact::Single { runner, seat } => add_single(text, runner, seat),
        Fact::Priorities {
            runner,
            priority,
            best,
            higher,
        } => add_priorities(text, runner, priority, best, higher),
        Fact::Limits {
            foreground,
            best_effort,
            background,
        } => add_limits(text, foreground, best_effort, background),
        Fact::Room {
            limit,
            running,
            most,
        } => add_room(text, limit, running, most),
        Fact::Behaves { runner, behaviour } => add_behaves(text, runner, behaviour),
        Fact::MayTake { place, entry } => add_entry(text, b"it may be taken by: ", place, &entry),
    }
}

/// Adds an entry's line, after these words. The error is out of memory.
fn add_entry(
    text: &mut Vec<u8>,
    words: &[u8],
    place: Place,
    entry: &Entry,
) -> Result<(), AllocError>
    ensures { OnOk result (text.new.items ≡ text.old.items ++ words.now ++ line_of place entry.now) }
{
    text.extend_from_slice(words)?;
    text.extend_from_slice(&entry_lines::line(place, entry))
}

/// Adds the line of a task that is not posted. The error is out of memory.
fn add_unposted(text: &mut Vec<u8>, task: TaskId) -> Result<(), AllocError>
    ensures { OnOk result (text.new.items ≡ text.old.items ++ unposted_line task) }
{
    add_around(
        text,
        b"no entry before it posts task ",
        u64::from(task),
        b"\n",
    )
}

/// Adds the line of the only seat that a runner has. The error is out of memory.
fn add_single(text: &mut Vec<u8>, runner: RunnerId, seat: SeatNo) -> Result<(), AllocError>
    ensures { OnOk result (text.new.items ≡ text.old.items ++ single_line runner seat) }
{
    let (first, second) = (u64::from(runner), u64::from(seat));
    add_around_two(
        text,
        b"runner ",
        first,
        b" is that of seat ",
        second,
        b" alone\n",
    )
}

/// Adds the line of two priorities. The error is out of memory.
fn add_priorities(
    text: &mut Vec<u8>,
    runner: RunnerId,
    priority: Priority,
    best: RunnerId,
    higher: Priority,
) -> Result<(), AllocError>
    ensures { OnOk result (text.new.items ≡ text.old.items ++ priorities_line runner priority best higher) }
{
    let word = priority_word(priority).as_bytes();
    let other = priority_word(higher).as_bytes();
    add_worded(text, b"runner ", runner, b" has priority ", word, b", ")?;
    add_worded(text, b"and runner ", best, b" has priority ", other, b"\n")
}

/// Adds the line of the limits. The error is out of memory.
fn add_limits(
    text: &mut Vec<u8>,
    foreground: u32,
    best_effort: u32,
    background: u32,
) -> Result<(), AllocError>
    ensures { OnOk result (text.new.items ≡ text.old.items ++ limits_line foreground best_effort background) }
{
    let before = b"the limits are: foreground ";
    let between = b", of which best_effort ";
    let (first, second) = (u64::from(foreground), u64::from(best_effort));
    add_around_two(text, before, first, between, second, b", ")?;
    add_around(text, b"background ", u64::from(background), b"\n")
}

/// Adds the line of what runs by a limit. The error is out of memory.
fn add_room(text: &mut Vec<u8>, limit: Limit, running: u64, most: u64) -> Result<(), AllocError>
    ensures { OnOk result (text.new.items ≡ text.old.items ++ room_line limit running most) }
{
    add_around_two(text, limit_words(limit), running, b" of ", most, b" run\n")
}

/// Adds the line of what shutdown does with a runner's tasks. The error is out of memory.
fn add_behaves(text: &mut Vec<u8>, runner: RunnerId, behaviour: Behaviour) -> Result<(), AllocError>
    ensures { OnOk result (text.new.items ≡ text.old.items ++ behaves_line runner behaviour) }
{
    let word = behaviour_word(behaviour).as_bytes();
    add_worded(
        text,
        b"runner ",
        runner,
        b" has shutdown behaviour ",
        word,
        b"\n",
    )
}

/// Adds a number between words. The error is out of memory.
pub(crate) fn add_around(
    text: &mut Vec<u8>,
    before: &[u8],
    number: u64,
    after: &[u8],
) -> Result<(), AllocError>
    ensures { OnOk result (text.new.items ≡ text.old.items ++ around before.now number after.now) }
{
    text.extend_from_slice(before)?;
    text.extend_from_slice(Buffer::new().format(number).as_bytes())?;
    text.extend_from_slice(after)
}

/// Adds two numbers between words. The error is out of memory.
pub(crate) fn add_around_two(
    text: &mut Vec<u8>,
    before: &[u8],
    first: u64,
    between: &[u8],
    second: u64,
    after: &[u8],
) -> Result<(), AllocError>
    ensures { OnOk result (text.new.items ≡ text.old.items ++ around_two before.now first between.now second after.now) }
{
    add_around(text, before, first, between)?;
    text.extend_from_slice(Buffer::new().format(second).as_bytes())?;
    text.extend_from_slice(after)
}

/// Adds a number and a word between words. The error is out of memory.
pub(crate) fn add_worded(
    text: &mut Vec<u8>,
    before: &[u8],
    number: u32,
    between: &[u8],
    word: &[u8],
    after: &[u8],
) -> Result<(), AllocError>
    ensures { OnOk result (text.new.items ≡ text.old.items ++ worded before.now number between.now word.now after.now) }
{
    add_around(text, before, u64::from(number), between)?;
    text.extend_from_slice(word)?;
    text.extend_from_slice(after)
}

/// The work that a limit is of.
fn limit_words(limit: Limit) -> &'static [u8]
    ensures { result.now ≡ limit_words limit }
{
    match limit {
        Limit::Foreground => b"work of the foreground: ",
        Limit::BestEffort => b"best_effort work of the foreground: ",
        Limit::Background => b"work of the background: ",
    }
}

/// What an entry is to the one that may not come.
fn role_words(role: Role) -> &'static [u8]
    ensures { result.now ≡ role_words role }
{
    match role {
        Role::Itself => b"the line is: ",
        Role::Taken => b"the task was taken before: ",
        Role::Posted => b"it was posted by: ",
        Role::Runs => b"its sequence runs on another seat: ",
        Role::Due => b"the task that is due instead was posted by: ",
        Role::Left => b"the value that is found there was left by: ",
        Role::Busy => b"this seat is at work since: ",
        Role::Elsewhere => b"the task was taken by another seat: ",
        Role::Ended => b"the task ended before: ",
        Role::Policy => b"the policy that holds it back was set by: ",
        Role::Shutdown => b"shutdown was started by: ",
        Role::Moment => b"the clock was last read by: ",
        Role::Cancelled => b"the job was cancelled by: ",
        Role::Fence => b"the fence of the queue was set by: ",
        Role::Off => b"a voter of the queue was switched off by: ",
        Role::Closed => b"the queue was closed by: ",
        Role::Before => b"it would have been allowed before: ",
        Role::After => b"it would have been allowed after: ",
        Role::Works => b"still at work since: ",
        Role::Waiting => b"this waits to be taken: ",
        Role::Blocks => b"this blocks the end of shutdown: ",
    }
}
