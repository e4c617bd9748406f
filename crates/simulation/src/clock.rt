ghost use Rattle.std.specs.Prelude.{◌≡◌, ◌≤◌, ◌+◌, ◌-◌, ◌*◌, ◌^◌, ◌++◌, ◌∷◌, [], ℕ, List, Option, IfOk, is_some, min, if◌then◌else◌};
ghost use Rattle.task_model.specs.Orders.{moment_of};
ghost use Rattle.task_base.specs.declared.limits.TheConstants.{MOST_WORKERS};
ghost use Rattle.task_base.specs.Plan.{Plan};
ghost use Rattle.task_base.specs.declared.entry.Entry.{Entry as EntryView};
ghost use Rattle.task_model.specs.Time.{now_after, now_of};
ghost use Rattle.simulation.specs.Clock.{Tells};
ghost use Rattle.simulation.specs.Simulated.{reading_at};

use crate::awaited::Awaited;
use std::alloc::{AllocError, Global};
use task_base::{Entry, Kind, Script};

/// What the clock of a simulated run reads next.
#[derive(Drop)]
pub enum TurnClock {
    /// So many microseconds more with each tick.
    Steps { step: u64, next: u64 },
    /// The next moment that is awaited.
    Jumps(Awaited),
}

impl TurnClock {
    /// The clock before the first entry. The error is that memory ran out.
    pub fn new(alloc: Global, script: &Script, step: Option<u64>) -> Result<TurnClock, AllocError>
        requires { script.now.workers ≤ MOST_WORKERS }
        ensures { IfOk result (Tells step script.now []) }
    {
        match step {
            Some(step) => Ok(TurnClock::Steps { step, next: step }),
            None => Ok(TurnClock::Jumps(Awaited::nothing(alloc, script)?)),
        }
    }

    /// What it reads next, in microseconds.
    pub fn reading(&self) -> u64
        ensures { (step : Option ℕ) (script : Plan) (past : List EntryView) → Tells step script past self.now → result ≡ reading_at step script past }
    {
        match self {
            TurnClock::Steps { next, .. } => *next,
            TurnClock::Jumps(awaited) => awaited.next(),
        }
    }

    /// One more entry has come. The error is that memory ran out.
    pub fn note(&mut self, script: &Script, entry: &Entry) -> Result<(), AllocError>
        requires tells { (step : Option ℕ) × (past : List EntryView) × Tells step script.now past self.old }
        requires seat { entry.now.seat ≤ script.now.workers }
        ensures { (step : Option ℕ) (past : List EntryView) → Tells step script.now past self.old → now_of past ≤ now_after (now_of past) entry.now.kind
            → IfOk result (λ _. Tells step script.now (past ++ entry.now ∷ []) self.new) }
    {
        match self {
            TurnClock::Steps { step, next } => {
                *next = next_reading(*step, *next, &entry.kind);
                Ok(())
            }
            TurnClock::Jumps(awaited) => awaited.note(script, entry),
        }
    }
}

/// The reading after an entry: a step more after a tick.
fn next_reading(step: u64, next: u64, kind: &Kind) -> u64
    ensures { (k : ℕ) → next ≡ min (k * step) (2 ^ 64 - 1) → result ≡ min ((k + (if is_some (moment_of kind.now) then 1 else 0)) * step) (2 ^ 64 - 1) }
{
    match *kind {
        Kind::Tick { .. } => next.saturating_add(step),
        _ => next,
    }
}
