ghost use Rattle.std.specs.Prelude.{◌≡◌, ◌+◌, ◌<◌, ◌^◌, [], ◌∷◌, ◌++◌, All, IfOk, IfSome, OnOk, Some, length, slice_get, take};
ghost use Rattle.script_model.specs.Laws.Sound.{IsSound};
ghost use Rattle.next_entry.specs.Causes.{named_by};
ghost use Rattle.log_context.specs.Context.{StandsIn, at_work};
ghost use Rattle.told_context.specs.Told.{IsContext, IsContextAt, IsContextOf, earlier, known_at, later, may_take, standing, takers_for, waits_by, waits_for};
ghost use Rattle.told_context.specs.declared.told.TheConstants.{FACTS_SHOWN};

use crate::takers::takers_of;
use log_context::{Fact, Role, Waits, context_at_end, context_of, push_some};
use log_moves::{place_after, place_before};
use next_entry::{Bar, Cause, Explanation};
use std::alloc::{AllocError, Global};
use task_base::{Entry, Kind, Script};

/// How many facts are told of a log at most, among them where else the entry might have come.
pub const FACTS_SHOWN: usize = 10;

/// What is to be said of a log besides what was told of it, at most `FACTS_SHOWN` facts. The error is out of memory.
pub fn facts_of(
    alloc: Global,
    script: &Script,
    log: &[Entry],
    told: &Explanation,
) -> Result<Vec<Fact>, AllocError>
    requires plan { IsSound script.now }
    requires few { length log.now < 2 ^ 32 }
    ensures context { IfOk result (λ facts. IsContext script.now log.now told.now facts.items) }
    ensures stand { IfOk result (λ facts. All (StandsIn log.now) facts.items) }
{
    match told {
        Explanation::Legal => Ok(Vec::new(alloc)),
        Explanation::Barred { place, cause } => {
            facts_at(alloc, script, log, *place as usize, cause)
        }
        Explanation::Unfinished { .. } => facts_at_end(alloc, log),
        Explanation::AtWork { .. } => facts_at_end(alloc, log),
    }
}

/// Who is at work at the log's end. The error is out of memory.
pub(crate) fn facts_at_end(alloc: Global, log: &[Entry]) -> Result<Vec<Fact>, AllocError>
    requires few { length log.now < 2 ^ 32 }
    ensures exact { IfOk result (λ facts. facts.items ≡ take FACTS_SHOWN (at_work log.now)) }
    ensures stand { IfOk result (λ facts. All (StandsIn log.now) facts.items) }
{
    let known = context_at_end(alloc, log)?;
    let facts = first_of(alloc, &known, FACTS_SHOWN)?;
    Ok(facts)
}

/// What is to be said of the entry at a place, which may not come there for this cause. The error is out of memory.
fn facts_at(
    alloc: Global,
    script: &Script,
    log: &[Entry],
    place: usize,
    cause: &Cause,
) -> Result<Vec<Fact>, AllocError>
    requires plan { IsSound script.now }
    requires few { length log.now < 2 ^ 32 }
    ensures context { IfOk result (λ facts. IsContextAt script.now log.now place cause.now (slice_get log.now place) facts.items) }
    ensures stand { IfOk result (λ facts. All (StandsIn log.now) facts.items) }
{
    match log.get(place) {
        None => Ok(Vec::new(alloc)),
        Some(entry) => facts_there(alloc, script, log, place, cause, *entry),
    }
}

/// What is to be said of this entry, which stands at the place. The error is out of memory.
fn facts_there(
    alloc: Global,
    script: &Script,
    log: &[Entry],
    place: usize,
    cause: &Cause,
    entry: Entry,
) -> Result<Vec<Fact>, AllocError>
    requires plan { IsSound script.now }
    requires few { length log.now < 2 ^ 32 }
    requires place { place < length log.now }
    requires there { slice_get log.now place ≡ Some entry }
    ensures context { IfOk result (λ facts. IsContextOf script.now log.now place cause.now entry facts.items) }
    ensures stand { IfOk result (λ facts. All (StandsIn log.now) facts.items) }
{
    let past = &log[..place];
    let known = known_at(alloc, script, past, place, cause, entry)?;
    let before = place_before(alloc, script, past, entry)?;
    let after = place_after(alloc, script, past, entry, &log[place + 1..])?;
    let mut facts = first_of(alloc, &known, FACTS_SHOWN - 2)?;
    push_some(&mut facts, earlier(log, before))?;
    push_some(&mut facts, later(log, place, after))?;
    Ok(facts)
}

/// What the past and the script have to do with this entry, which may not come after it at the place, and by which entries what is
/// waited for may be taken there. The error is out of memory.
fn known_at(
    alloc: Global,
    script: &Script,
    past: &[Entry],
    place: usize,
    cause: &Cause,
    entry: Entry,
) -> Result<Vec<Fact>, AllocError>
    requires plan { IsSound script.now }
    requires few { length past.now < 2 ^ 32 }
    requires place { place < 2 ^ 32 }
    ensures exact { IfOk result (λ known. known.items ≡ known_at script.now past.now place cause.now entry) }
    ensures stand { IfOk result (λ known. All (StandsIn (past.now ++ entry ∷ [])) known.items) }
{
    let mut known = context_of(
        alloc,
        script,
        past,
        &entry,
        named_by(cause),
        waits_for(cause),
    )?;
    let takers = takers_for(alloc, script, past, cause)?;
    add_takers(&mut known, place, &takers)?;
    Ok(known)
}

/// The entries by which seats may take what the driver waits for, where the cause is that something may be taken. The error is
/// out of memory.
fn takers_for(
    alloc: Global,
    script: &Script,
    past: &[Entry],
    cause: &Cause,
) -> Result<Vec<Entry>, AllocError>
    requires { IsSound script.now }
    ensures { IfOk result (λ takers. takers.items ≡ takers_for script.now past.now cause.now) }
{
    match *cause {
        Cause::NotIdle { ready: true, .. } => takers_of(alloc, script, past),
        _ => Ok(Vec::new(alloc)),
    }
}

/// Adds that in place of the entry at a place these may come. The error is out of memory.
fn add_takers(facts: &mut Vec<Fact>, place: usize, takers: &[Entry]) -> Result<(), AllocError>
    requires { place < 2 ^ 32 }
    ensures { OnOk result (facts.new.items ≡ facts.old.items ++ may_take place takers.now) }
{
    for taker in takers {
        facts.push(Fact::MayTake {
            place: place as u32,
            entry: *taker,
        })?;
    }
    Ok(())
}

/// The first facts of a list, at most this many. The error is out of memory.
#[tactic(auto, using(std::proofs::lemmas::List::take_all))]
pub(crate) fn first_of(alloc: Global, known: &[Fact], most: usize) -> Result<Vec<Fact>, AllocError>
    ensures { IfOk result (λ facts. facts.items ≡ take most known.now) }
{
    let mut facts = Vec::new(alloc);
    if known.len() <= most {
        facts.extend_from_slice(known)?;
    } else {
        facts.extend_from_slice(&known[..most])?;
    }
    Ok(facts)
}

/// That the entry would have been allowed before the one at this place.
fn earlier(log: &[Entry], place: Option<usize>) -> Option<Fact>
    requires { length log.now < 2 ^ 32 }
    ensures { result ≡ earlier log.now place }
{
    standing(Role::Before, log, place?)
}

/// That the entry at a place would have been allowed after the one of those that follow it which has this number, from 0.
fn later(log: &[Entry], place: usize, count: Option<usize>) -> Option<Fact>
    requires few { length log.now < 2 ^ 32 }
    requires place { place < length log.now }
    requires count { IfSome count (λ n. place + 1 + n < length log.now) }
    ensures { result ≡ later log.now place count }
{
    standing(Role::After, log, place + 1 + count?)
}

/// That the entry at a place is this to the one that may not come.
fn standing(role: Role, log: &[Entry], place: usize) -> Option<Fact>
    requires { length log.now < 2 ^ 32 }
    ensures { result ≡ standing role log.now place }
{
    match log.get(place) {
        None => None,
        Some(entry) => Some(Fact::Stands {
            role,
            place: place as u32,
            entry: *entry,
        }),
    }
}

/// The entry that a cause names.
fn named_by(cause: &Cause) -> Option<Kind>
    ensures { result ≡ named_by cause.now }
{
    match *cause {
        Cause::Runs { next, .. } | Cause::Holds { next, .. } => Some(next),
        Cause::Wants { next } | Cause::Best { next, .. } => Some(next),
        _ => None,
    }
}

/// What an entry waits for, by its cause.
fn waits_for(cause: &Cause) -> Waits
    ensures { result ≡ waits_for cause.now }
{
    match *cause {
        Cause::NoSource { bar } => waits_by(bar),
        Cause::NotIdle { .. } => Waits::Idle,
        Cause::Inside { .. } => Waits::Work,
        Cause::Blocked { .. } => Waits::Shutdown,
        _ => Waits::Nothing,
    }
}

/// What an entry waits for, by what is against its source.
pub(crate) fn waits_by(bar: Bar) -> Waits
    ensures { result ≡ waits_by bar }
{
    match bar {
        Bar::Full => Waits::Work,
        Bar::Limit => Waits::Room,
        _ => Waits::Nothing,
    }
}
