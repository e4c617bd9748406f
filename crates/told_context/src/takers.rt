ghost use Rattle.std.specs.Prelude.{◌≡◌, ◌+◌, ◌≤◌, IfOk, IfSome, None};
ghost use Rattle.script_model.specs.Laws.Sound.{IsSound};
ghost use Rattle.env_step.specs.Hands.{AreInHand};
ghost use Rattle.told_context.specs.Takers.{IsFirst, taken_by, takers_of};

use env_check::follow_all;
use env_core::Env;
use env_step::Hands;
use log_context::MOST_SEARCHED;
use log_replay::{Replay, discard};
use std::alloc::{AllocError, Global};
use task_base::{Entry, Script, SeatNo};
use task_body::ScriptBody;

/// How many entries are told at most by which a seat may take what waits.
pub const TAKERS_SHOWN: usize = 2;

/// The entries by which the first seats may take what waits after the past, at most `TAKERS_SHOWN`; none after more than
/// `MOST_SEARCHED` entries. The past is followed once for each of them. The error is out of memory.
pub fn takers_of(alloc: Global, script: &Script, past: &[Entry]) -> Result<Vec<Entry>, AllocError>
    requires { IsSound script.now }
    ensures { IfOk result (λ takers. takers.items ≡ takers_of script.now past.now) }
{
    let mut takers = Vec::new(alloc);
    if past.len() > MOST_SEARCHED {
        return Ok(takers);
    }
    let Some(first) = first_from(alloc, script, past, 1)? else {
        return Ok(takers);
    };
    takers.push(first)?;
    let Some(second) = first_from(alloc, script, past, first.seat + 1)? else {
        return Ok(takers);
    };
    takers.push(second)?;
    Ok(takers)
}

/// The first entry by which a seat, from this one on, may take what waits after the past. The error is out of memory.
fn first_from(
    alloc: Global,
    script: &Script,
    past: &[Entry],
    from: SeatNo,
) -> Result<Option<Entry>, AllocError>
    requires plan { IsSound script.now }
    requires worker { 1 ≤ from }
    requires within { from ≤ script.now.workers + 1 }
    ensures { IfOk result (λ found. IsFirst script.now past.now from found) }
{
    let mut replay = Replay::open(alloc, script)?;
    if let Some(_) = follow_all(&mut replay, script, past) {
        replay.discard();
        return Ok(None);
    }
    let (mut env, mut hands) = replay.into_parts();
    let found = first_taken(&mut env, &mut hands, script, from);
    discard(env, hands);
    Ok(found)
}

/// The first entry by which a seat, from this one on, takes what waits. The seats before it change nothing.
fn first_taken(
    env: &mut Env<ScriptBody>,
    hands: &mut Hands,
    script: &Script,
    from: SeatNo,
) -> Option<Entry>
    requires plan { IsSound script.now }
    requires hands { AreInHand env.old hands.old }
    requires script { script.now ≡ env.old.script }
    requires worker { 1 ≤ from }
    requires within { from ≤ script.now.workers + 1 }
    ensures { IsFirst script.now env.old.history from result }
{
    for seat in from..script.workers + 1 {
        match taken_by(env, hands, script, seat) {
            None => {}
            Some(entry) => return Some(entry),
        }
    }
    None
}

/// The entry by which a worker that is free takes its best source, where it may. Else nothing changes.
fn taken_by(
    env: &mut Env<ScriptBody>,
    hands: &mut Hands,
    script: &Script,
    seat: SeatNo,
) -> Option<Entry>
    requires hands { AreInHand env.old hands.old }
    requires script { script.now ≡ env.old.script }
    requires worker { 1 ≤ seat }
    requires known { seat ≤ script.now.workers }
    ensures exact { result ≡ taken_by script.now env.old.history seat }
    ensures seat { IfSome result (λ entry. entry.seat ≡ seat) }
    ensures same { result ≡ None → env.new ≡ env.old }
    ensures hands { AreInHand env.new hands.new }
{
    if !hands.is_free(seat) {
        return None;
    }
    match hands.step(env, script, seat, 0) {
        Ok(kind) => Some(Entry { seat, kind }),
        Err(_) => None,
    }
}
