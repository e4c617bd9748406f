ghost use Rattle.std.specs.Prelude.{◌≡◌, ◌≢◌, ◌+◌, ◌-◌, ◌<◌, ◌≤◌, ◌↔◌, IsOk, IfErr, OnOk, OnErr};

use std::marker::Model;
use task_traits::Phase;
use thiserror::Error;

/// The most pieces of work that are counted at once.
pub const MAX_BLOCKERS: u32 = 131_072;

/// Shutdown cannot end yet: `count` pieces of work still block it, at least one.
#[derive(Clone, Copy, Debug, PartialEq, Eq, Error)]
#[error("still blocked by {count}")]
pub struct StillBlocked {
    pub count: u32,
}

/// The phase of shutdown, and how many pieces of work block its end (this project's own rule; what blocks is
/// for the caller to say). The phase goes from Running by `start` to Started, and from there by `finish`,
/// where nothing blocks, to Done, in which nothing blocks any more.
#[derive(Debug, Drop)]
pub struct PhaseCount {
    phase: Phase,
    count: u32,
}

impl Model for PhaseCount {
    ghost use Rattle.std.specs.Prelude.{◌≡◌, ◌≤◌};
    ghost use Rattle.task_traits.specs.declared.phase.Phase.TheVariants.{Done};
    ghost use Rattle.shutdown_phase.specs.Progress.{Progress};
    ghost use Rattle.shutdown_phase.specs.declared.phase_count.TheConstants.{MAX_BLOCKERS};

    ghost Value = { Progress };

    ghost view = { λ p. record { phase = p.phase; count = p.count } };

    ghost invariant = { λ p. (p.count ≤ MAX_BLOCKERS) × (p.phase ≡ Done → p.count ≡ 0) };
}

impl PhaseCount {
    /// No shutdown yet, and nothing counted.
    pub fn new() -> PhaseCount
        ensures { result ≡ record { phase = Phase.Running; count = 0 } }
    {
        PhaseCount {
            phase: Phase::Running,
            count: 0,
        }
    }

    /// How far shutdown has come.
    pub fn phase(&self) -> Phase
        ensures { result ≡ self.now.phase }
    {
        self.phase
    }

    /// How many pieces of work block the end of shutdown.
    pub fn count(&self) -> u32
        ensures count { result ≡ self.now.count }
        ensures bound { result ≤ MAX_BLOCKERS }
        ensures none_when_done { self.now.phase ≡ Phase.Done → result ≡ 0 }
    {
        self.count
    }

    /// Counts one more piece of work. It may come after shutdown started.
    pub fn add(&mut self)
        requires not_done { self.old.phase ≢ Phase.Done }
        requires room { self.old.count < MAX_BLOCKERS }
        ensures { self.new ≡ record self.old { count = self.old.count + 1 } }
    {
        self.count += 1;
    }

    /// Counts one piece of work less: it blocks no more.
    pub fn drop_one(&mut self)
        requires { 0 < self.old.count }
        ensures { self.new ≡ record self.old { count = self.old.count - 1 } }
    {
        self.count -= 1;
    }

    /// Starts shutdown, which then waits for what is counted.
    pub fn start(&mut self)
        requires { self.old.phase ≡ Phase.Running }
        ensures { self.new ≡ record self.old { phase = Phase.Started } }
    {
        self.phase = Phase::Started;
    }

    /// Ends shutdown, where nothing blocks it.
    pub fn finish(&mut self) -> Result<(), StillBlocked>
        requires { self.old.phase ≡ Phase.Started }
        ensures ok { IsOk result ↔ (self.old.count ≡ 0) }
        ensures blocked { IfErr result (λ e. e.count ≡ self.old.count) }
        ensures done { OnOk result (self.new ≡ record { phase = Phase.Done; count = 0 }) }
        ensures unchanged { OnErr result (self.new ≡ self.old) }
    {
        if self.count > 0 {
            return Err(StillBlocked { count: self.count });
        }
        self.phase = Phase::Done;
        Ok(())
    }
}
