ghost use Rattle.std.specs.Prelude.{◌≡◌, ◌<◌, ◌^◌, ◌∷◌, ◌++◌, [], All, IfOk, OnOk, flat_map, length};
ghost use Rattle.std.specs.Option.{option_to_list};
ghost use Rattle.log_context.specs.Context.{StandsIn, at_work, context_of, itself, limits, rooms, tasks, told_of, waited_for};

use crate::fact::{Fact, Role};
use crate::posts::{posted, taken};
use crate::queues::{closed, fence, voted_off};
use crate::rooms::{first_room, second_room};
use crate::seats::{busy, elsewhere};
use crate::sought::{Sought, known_of};
use crate::sources::{
    behaves, due, held, left, only_seat, priorities, ripens, sequence, shut, stopped,
};
use std::alloc::{AllocError, Global};
use task_base::{Entry, Kind, Script};

/// Of how many seats at most, from the driver's on, it is said what they are at work with.
pub const SEATS_SHOWN: u32 = 16;

/// What an entry that may not come waits for, by what others do.
#[derive(Clone, Copy, Debug)]
pub enum Waits {
    /// For nothing that others do.
    Nothing,
    /// For room, by the limits.
    Room,
    /// For others to end what they are at work with.
    Work,
    /// For an idle pool: that others end their work, and that what waits is taken.
    Idle,
    /// For the end of shutdown: that what blocks it ends.
    Shutdown,
}

/// What the past and the script have to do with an entry that may not come after the past, where this one of its seat may come,
/// if one may: the entry itself, and in the order of `told_of` what is to be said of it; and by what it waits for, how much work
/// runs and may, with the limits, which tasks are waited for, and who is at work. The error is out of memory.
pub fn context_of(
    alloc: Global,
    script: &Script,
    past: &[Entry],
    entry: &Entry,
    named: Option<Kind>,
    waits: Waits,
) -> Result<Vec<Fact>, AllocError>
    requires { length past.now < 2 ^ 32 }
    ensures exact { IfOk result (λ facts. facts.items ≡ context_of script.now past.now entry.now named waits) }
    ensures stand { IfOk result (λ facts. All (StandsIn (past.now ++ entry.now ∷ [])) facts.items) }
{
    let facts = all_of(alloc, script, past, entry, named, waits)?;
    Ok(facts)
}

/// The same, in its order. The error is out of memory.
fn all_of(
    alloc: Global,
    script: &Script,
    past: &[Entry],
    entry: &Entry,
    named: Option<Kind>,
    waits: Waits,
) -> Result<Vec<Fact>, AllocError>
    requires { length past.now < 2 ^ 32 }
    ensures { IfOk result (λ facts. facts.items ≡ context_of script.now past.now entry.now named waits) }
{
    let mut facts = told_of(alloc, script, past, entry, named)?;
    add_waited(alloc, &mut facts, script, past, &entry.kind, waits)?;
    Ok(facts)
}

/// Adds what the entry waits for. The error is out of memory.
fn add_waited(
    alloc: Global,
    facts: &mut Vec<Fact>,
    script: &Script,
    past: &[Entry],
    kind: &Kind,
    waits: Waits,
) -> Result<(), AllocError>
    requires { length past.now < 2 ^ 32 }
    ensures { OnOk result (facts.new.items ≡ facts.old.items ++ waited_for script.now past.now kind.now waits) }
{
    match waits {
        Waits::Nothing => Ok(()),
        Waits::Room => add_rooms(facts, script, past, kind),
        Waits::Work => add_at_work(facts, past),
        Waits::Idle => add_tasks(alloc, facts, script, past, Sought::Waiting),
        Waits::Shutdown => add_tasks(alloc, facts, script, past, Sought::Blocking),
    }
}

/// Adds how much work runs and may, the limits, and who is at work. The error is out of memory.
fn add_rooms(
    facts: &mut Vec<Fact>,
    script: &Script,
    past: &[Entry],
    kind: &Kind,
) -> Result<(), AllocError>
    requires { length past.now < 2 ^ 32 }
    ensures { OnOk result (facts.new.items ≡ facts.old.items ++ rooms script.now past.now kind.now) }
{
    let found = [
        first_room(script, past, kind),
        second_room(script, past, kind),
        Some(limits(script)),
    ];
    add_some(facts, &found)?;
    add_at_work(facts, past)
}

/// Adds the first posts of the tasks that are waited for, and who is at work. The error is out of memory.
fn add_tasks(
    alloc: Global,
    facts: &mut Vec<Fact>,
    script: &Script,
    past: &[Entry],
    sought: Sought,
) -> Result<(), AllocError>
    requires { length past.now < 2 ^ 32 }
    ensures { OnOk result (facts.new.items ≡ facts.old.items ++ tasks script.now past.now sought) }
{
    let known = known_of(alloc, script, past, sought)?;
    facts.extend_from_slice(&known)?;
    add_at_work(facts, past)
}

/// Who is at work where the log ends. The error is out of memory.
pub fn context_at_end(alloc: Global, past: &[Entry]) -> Result<Vec<Fact>, AllocError>
    requires { length past.now < 2 ^ 32 }
    ensures exact { IfOk result (λ facts. facts.items ≡ at_work past.now) }
    ensures stand { IfOk result (λ facts. All (StandsIn past.now) facts.items) }
{
    let mut facts = Vec::new(alloc);
    add_at_work(&mut facts, past)?;
    Ok(facts)
}

/// The entry itself, and what is to be said of it. The error is out of memory.
fn told_of(
    alloc: Global,
    script: &Script,
    past: &[Entry],
    entry: &Entry,
    named: Option<Kind>,
) -> Result<Vec<Fact>, AllocError>
    requires { length past.now < 2 ^ 32 }
    ensures { IfOk result (λ facts. facts.items ≡ told_of script.now past.now entry.now named) }
{
    let kind = &entry.kind;
    let seat = entry.seat;
    let found = [
        Some(itself(past, entry)),
        taken(past, kind),
        posted(past, kind),
        sequence(script, past, seat, kind),
        busy(Role::Busy, past, seat),
        elsewhere(past, seat, kind),
        due(script, past, kind, named),
        left(script, past, kind, named),
        priorities(script, past, kind, named),
        only_seat(script, seat, kind),
        held(script, past, kind),
        ripens(past, kind),
        shut(script, past, kind, named),
        behaves(script, kind, named),
        stopped(past, kind),
        closed(past, kind),
        voted_off(past, kind),
        fence(past, kind),
    ];
    let mut facts = Vec::new(alloc);
    add_some(&mut facts, &found)?;
    Ok(facts)
}

/// The entry itself, at its place.
fn itself(past: &[Entry], entry: &Entry) -> Fact
    requires { length past.now < 2 ^ 32 }
    ensures { result ≡ itself past.now entry.now }
{
    Fact::Stands {
        role: Role::Itself,
        place: past.len() as u32,
        entry: *entry,
    }
}

/// How much work may run at once.
fn limits(script: &Script) -> Fact
    ensures { result ≡ limits script.now }
{
    Fact::Limits {
        foreground: script.foreground,
        best_effort: script.foreground_best,
        background: script.background,
    }
}

/// Adds a fact, if there is one. The error is out of memory.
pub fn push_some(facts: &mut Vec<Fact>, fact: Option<Fact>) -> Result<(), AllocError>
    ensures { OnOk result (facts.new.items ≡ facts.old.items ++ option_to_list fact) }
{
    match fact {
        None => {}
        Some(fact) => facts.push(fact)?,
    }
    Ok(())
}

/// Adds the facts that there are, in their order. The error is out of memory.
fn add_some(facts: &mut Vec<Fact>, found: &[Option<Fact>]) -> Result<(), AllocError>
    ensures { OnOk result (facts.new.items ≡ facts.old.items ++ flat_map option_to_list found.now) }
{
    for fact in found {
        push_some(facts, *fact)?;
    }
    Ok(())
}

/// Adds who is at work, of the first seats. The error is out of memory.
fn add_at_work(facts: &mut Vec<Fact>, past: &[Entry]) -> Result<(), AllocError>
    requires { length past.now < 2 ^ 32 }
    ensures { OnOk result (facts.new.items ≡ facts.old.items ++ at_work past.now) }
{
    for seat in 0..SEATS_SHOWN {
        push_some(facts, busy(Role::Works, past, seat))?;
    }
    Ok(())
}
