ghost use Rattle.std.specs.Prelude.{◌≡◌, ◌≤◌, ℕ, All, [], length, Some, IfOk};
ghost use Rattle.task_base.specs.declared.limits.TheConstants.{MOST_EVENTS};
ghost use Rattle.log_model.specs.Fits.{Fits};
ghost use Rattle.script_model.specs.Bound.{events_bound_of};
ghost use Rattle.script_model.specs.Laws.Sound.{IsSound};
ghost use Rattle.hist_model.specs.Legal.{IsLegal};
ghost use Rattle.hist_model.specs.Moments.{moments_of, ticks_of};
ghost use Rattle.hist_model.specs.Script.{IsWhole};
ghost use Rattle.env_step.specs.Hands.{AreInHand};
ghost use Rattle.simulation.specs.Draw.{IsFair};
ghost use Rattle.simulation.specs.Simulated.{readings_by, simulated, simulated_from};

use crate::clock::TurnClock;
use crate::draw::Draw;
use crate::lots::Lots;
use crate::turn::draw_entry;
use env_core::Env;
use env_step::Hands;
use log_replay::{Replay, discard};
use script_bound::events_bound;
use std::alloc::{AllocError, Global};
use task_base::{Entry, Rows, Script};
use task_body::ScriptBody;

/// The log of a run on one thread: at each moment a seat is drawn, by the lots, from a generator that begins at the seed, and makes its
/// entry; a seat that may make none is struck out, and another one is drawn. It ends where no seat may make any. Where there is a step,
/// in microseconds, each tick reads that much more than the one before; else it reads the next moment that is awaited.
///
/// It always returns: a script has no more entries than its bound says, and where no seat may make one all is done
/// (`hist_model::every_way_ends_whole`). The error is that memory ran out.
pub fn simulate(
    alloc: Global,
    script: &Script,
    seed: u64,
    lots: Lots,
    step: Option<u64>,
) -> Result<Rows<Entry>, AllocError>
    requires plan { IsSound script.now }
    requires lots { IsFair lots }
    ensures simulated { IfOk result (λ log. log.items ≡ simulated script.now seed lots step) }
    ensures legal { IfOk result (λ log. IsLegal script.now log.items) }
    ensures whole { IfOk result (λ log. IsWhole script.now log.items) }
    ensures bounded { IfOk result (λ log. length log.items ≤ MOST_EVENTS) }
    ensures fits { IfOk result (λ log. All Fits log.items) }
    ensures moments { IfOk result (λ log. (each : ℕ) → step ≡ Some each → ticks_of log.items ≡ moments_of (readings_by each (length (ticks_of log.items)))) }
{
    let draw = Draw::new(alloc, seed, lots)?;
    let (mut env, mut hands) = Replay::open(alloc, script)?.into_parts();
    match make_all(alloc, &mut env, &mut hands, script, draw, step) {
        Ok(()) => {
            drop(hands);
            Ok(env.into_log())
        }
        Err(error) => {
            discard(env, hands);
            Err(error)
        }
    }
}

/// Has seats make entries, from the first one on, until none may make any. The error is that memory ran out.
fn make_all(
    alloc: Global,
    env: &mut Env<ScriptBody>,
    hands: &mut Hands,
    script: &Script,
    mut draw: Draw,
    step: Option<u64>,
) -> Result<(), AllocError>
    requires plan { IsSound script.now }
    requires hands { AreInHand env.old hands.old }
    requires script { env.old.script ≡ script.now }
    requires empty { env.old.history ≡ [] }
    ensures hands { AreInHand env.new hands.new }
    ensures script { env.new.script ≡ script.now }
    ensures made { IfOk result (λ _. env.new.history ≡ simulated_from (events_bound_of script.now) script.now step [] draw) }
    ensures whole { IfOk result (λ _. IsWhole script.now env.new.history) }
{
    let mut clock = TurnClock::new(alloc, script, step)?;
    for _ in 0..events_bound(script) {
        draw.refill(script.workers)?;
        match draw_entry(env, hands, script, &mut draw, clock.reading()) {
            Some(entry) => clock.note(script, &entry)?,
            None => return Ok(()),
        }
    }
    Ok(())
}
