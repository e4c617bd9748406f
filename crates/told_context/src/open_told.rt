ghost use Rattle.std.specs.Prelude.{◌≡◌, ◌<◌, ◌^◌, All, IfOk, Some, length, slice_get};
ghost use Rattle.log_context.specs.Context.{StandsIn};
ghost use Rattle.open_explain.specs.Told.{named_by};
ghost use Rattle.told_context.specs.Open.{open_facts_at, open_facts_of, open_waits_for};

use crate::told::{FACTS_SHOWN, facts_at_end, first_of, waits_by};
use log_context::{Fact, Waits, context_of};
use next_entry::{OpenCause, OpenTold};
use std::alloc::{AllocError, Global};
use task_base::{Entry, Kind, Script};

/// What is to be said of a log of a script's open plan besides what was told of it, at most `FACTS_SHOWN` facts. The error is out of
/// memory.
pub fn open_facts_of(
    alloc: Global,
    script: &Script,
    log: &[Entry],
    told: &OpenTold,
) -> Result<Vec<Fact>, AllocError>
    requires { length log.now < 2 ^ 32 }
    ensures exact { IfOk result (λ facts. facts.items ≡ open_facts_of script.now log.now told.now) }
    ensures stand { IfOk result (λ facts. All (StandsIn log.now) facts.items) }
{
    match told {
        OpenTold::Legal => Ok(Vec::new(alloc)),
        OpenTold::Barred { place, cause } => {
            open_facts_at(alloc, script, log, *place as usize, cause)
        }
        OpenTold::AtWork { .. } => facts_at_end(alloc, log),
    }
}

/// What is to be said of the entry at a place, which may not come there for this cause. The error is out of memory.
fn open_facts_at(
    alloc: Global,
    script: &Script,
    log: &[Entry],
    place: usize,
    cause: &OpenCause,
) -> Result<Vec<Fact>, AllocError>
    requires { length log.now < 2 ^ 32 }
    ensures exact { IfOk result (λ facts. facts.items ≡ open_facts_at script.now log.now place cause.now (slice_get log.now place)) }
    ensures stand { IfOk result (λ facts. All (StandsIn log.now) facts.items) }
{
    match log.get(place) {
        None => Ok(Vec::new(alloc)),
        Some(entry) => open_facts_there(alloc, script, log, place, cause, *entry),
    }
}

/// What is to be said of this entry, which stands at the place. The error is out of memory.
fn open_facts_there(
    alloc: Global,
    script: &Script,
    log: &[Entry],
    place: usize,
    cause: &OpenCause,
    entry: Entry,
) -> Result<Vec<Fact>, AllocError>
    requires few { length log.now < 2 ^ 32 }
    requires place { place < length log.now }
    requires there { slice_get log.now place ≡ Some entry }
    ensures exact { IfOk result (λ facts. facts.items ≡ open_facts_at script.now log.now place cause.now (Some entry)) }
    ensures stand { IfOk result (λ facts. All (StandsIn log.now) facts.items) }
{
    let known = context_of(
        alloc,
        script,
        &log[..place],
        &entry,
        named_by(cause),
        open_waits_for(cause),
    )?;
    let facts = first_of(alloc, &known, FACTS_SHOWN)?;
    Ok(facts)
}

/// The entry that a cause names.
fn named_by(cause: &OpenCause) -> Option<Kind>
    ensures { result ≡ named_by cause.now }
{
    match *cause {
        OpenCause::Makes { next } | OpenCause::Best { next, .. } => Some(next),
        _ => None,
    }
}

/// What an entry waits for, by its cause.
fn open_waits_for(cause: &OpenCause) -> Waits
    ensures { result ≡ open_waits_for cause.now }
{
    match *cause {
        OpenCause::NoSource { bar } => waits_by(bar),
        OpenCause::NotIdle { .. } => Waits::Idle,
        OpenCause::Inside { .. } => Waits::Work,
        OpenCause::Blocked { .. } => Waits::Shutdown,
        _ => Waits::Nothing,
    }
}
