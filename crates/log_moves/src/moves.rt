ghost use Rattle.std.specs.Prelude.{◌≡◌, ◌<◌, ◌∷◌, ◌++◌, [], IfOk, IfSome, find, is_none, length, min};
ghost use Rattle.std.specs.List.{range_with_len};
ghost use Rattle.script_model.specs.Laws.Sound.{IsSound};
ghost use Rattle.hist_model.specs.Legal.{is_legal};
ghost use Rattle.log_moves.specs.Moves.{IsAfter, IsBefore, after_of, before_of, fits_after, fits_before};

use env_check::follow_all;
use log_replay::Replay;
use std::alloc::{AllocError, Global};
use task_base::{Entry, Script};

/// How many places are tried at most, on each side of an entry's own.
pub const REACH: usize = 64;
/// After more entries than these no other place is tried, since each try follows them all.
pub const MOST_BEFORE: usize = 65_536;

/// Before which entry of the past this one might have come: the nearest one, of the last `REACH`; none after more than
/// `MOST_BEFORE` entries. The error is out of memory.
pub fn place_before(
    alloc: Global,
    script: &Script,
    past: &[Entry],
    entry: Entry,
) -> Result<Option<usize>, AllocError>
    requires { IsSound script.now }
    ensures exact { IfOk result (λ found. found ≡ before_of script.now past.now entry) }
    ensures allowed { IfOk result (λ found. IfSome found (IsBefore script.now past.now entry)) }
{
    let found = nearest_before(alloc, script, past, entry)?;
    Ok(found)
}

/// After which of the entries that follow it, counted from 0, this one might have come: the nearest one, of the first `REACH`;
/// none after more than `MOST_BEFORE` entries. The error is out of memory.
pub fn place_after(
    alloc: Global,
    script: &Script,
    past: &[Entry],
    entry: Entry,
    rest: &[Entry],
) -> Result<Option<usize>, AllocError>
    requires { IsSound script.now }
    ensures exact { IfOk result (λ found. found ≡ after_of script.now past.now entry rest.now) }
    ensures allowed { IfOk result (λ found. IfSome found (IsAfter script.now past.now entry rest.now)) }
{
    let found = nearest_after(alloc, script, past, entry, rest)?;
    Ok(found)
}

/// The nearest entry before which it might have come, where the past is not too long. The error is out of memory.
#[tactic(auto, unfolding(crate::specs::Moves::before_of))]
fn nearest_before(
    alloc: Global,
    script: &Script,
    past: &[Entry],
    entry: Entry,
) -> Result<Option<usize>, AllocError>
    requires { IsSound script.now }
    ensures { IfOk result (λ found. found ≡ before_of script.now past.now entry) }
{
    if past.len() > MOST_BEFORE {
        return Ok(None);
    }
    match first_back(alloc, script, past, entry)? {
        None => Ok(None),
        Some(back) => Ok(Some(past.len() - 1 - back)),
    }
}

/// The nearest entry after which it might have come, where the past is not too long. The error is out of memory.
#[tactic(auto, unfolding(crate::specs::Moves::after_of))]
fn nearest_after(
    alloc: Global,
    script: &Script,
    past: &[Entry],
    entry: Entry,
    rest: &[Entry],
) -> Result<Option<usize>, AllocError>
    requires { IsSound script.now }
    ensures { IfOk result (λ found. found ≡ after_of script.now past.now entry rest.now) }
{
    if past.len() > MOST_BEFORE {
        return Ok(None);
    }
    let found = first_on(alloc, script, past, entry, rest)?;
    Ok(found)
}

/// The first entry, counted from the past's end, before which it might have come. The error is out of memory.
fn first_back(
    alloc: Global,
    script: &Script,
    past: &[Entry],
    entry: Entry,
) -> Result<Option<usize>, AllocError>
    requires { IsSound script.now }
    ensures first { IfOk result (λ found. found ≡ find (fits_before script.now past.now entry) (range_with_len 0 (min REACH (length past.now)))) }
    ensures within { IfOk result (λ found. IfSome found (λ back. back < length past.now)) }
{
    for back in 0..REACH.min(past.len()) {
        if is_legal_with(alloc, script, &past[..past.len() - 1 - back], entry)? {
            return Ok(Some(back));
        }
    }
    Ok(None)
}

/// The first of the entries that follow, counted from 0, after which it might have come. The error is out of memory.
fn first_on(
    alloc: Global,
    script: &Script,
    past: &[Entry],
    entry: Entry,
    rest: &[Entry],
) -> Result<Option<usize>, AllocError>
    requires { IsSound script.now }
    ensures { IfOk result (λ found. found ≡ find (fits_after script.now past.now entry rest.now) (range_with_len 0 (min REACH (length rest.now)))) }
{
    let mut log = Vec::new(alloc);
    log.extend_from_slice(past)?;
    for n in 0..REACH.min(rest.len()) {
        log.push(rest[n])?;
        if is_legal_with(alloc, script, &log, entry)? {
            return Ok(Some(n));
        }
    }
    Ok(None)
}

/// Whether these entries and this one after them are legal. The error is out of memory.
fn is_legal_with(
    alloc: Global,
    script: &Script,
    front: &[Entry],
    entry: Entry,
) -> Result<bool, AllocError>
    requires { IsSound script.now }
    ensures { IfOk result (λ legal. legal ≡ is_legal script.now (front.now ++ entry ∷ [])) }
{
    let mut log = Vec::new(alloc);
    log.extend_from_slice(front)?;
    log.push(entry)?;
    let mut replay = Replay::open(alloc, script)?;
    let stop = follow_all(&mut replay, script, &log);
    replay.discard();
    Ok(is_nowhere(stop))
}

/// Whether there is no place.
fn is_nowhere(place: Option<u32>) -> bool
    ensures { result ≡ is_none place }
{
    match place {
        None => true,
        Some(_) => false,
    }
}
