ghost use Rattle.std.specs.Prelude.{◌≡◌};

use crate::pauses::Pauses;
use crate::pausing::sleep;
use env_io::Gate;
use std::hint;
use std::marker::Model;
use std::rt::Clock;
use std::time::{Duration, Instant};

/// A gate around a gate, after which a worker pauses by a seed before the first step of its task. How long is up to seed and
/// task alone, and not to the worker.
///
/// Contracts see how long pauses are.
#[derive(Drop)]
pub struct ShakingGate<'a, G: Gate, H: Clock + Sync> {
    gate: &'a G,
    clock: &'a H,
    pauses: Pauses,
}

impl<'a, G: Gate, H: Clock + Sync> Model for ShakingGate<'a, G, H> {
    ghost use Rattle.env_pauses.specs.declared.pauses.Pauses.{Pauses};

    ghost Value = { Pauses };

    ghost view = { λ g. g.pauses };
}

impl<'a, G: Gate, H: Clock + Sync> ShakingGate<'a, G, H> {
    /// The thread sleeps by the clock.
    pub fn new(gate: &'a G, clock: &'a H, pauses: Pauses) -> ShakingGate<'a, G, H>
        ensures { result ≡ pauses }
    {
        ShakingGate {
            gate,
            clock,
            pauses,
        }
    }
}

impl<'a, G: Gate, H: Clock + Sync> Gate for ShakingGate<'a, G, H> {
    fn before(&self, seat: u32, task: u32) {
        self.gate.before(seat, task);
        sleep(self.clock, self.pauses.of_task(task));
    }
}

/// A gate around a gate, after which a worker works for a given time before the first step of its task: so each task takes that
/// much of a processor's time.
///
/// Contracts see the time, in nanoseconds.
#[derive(Drop)]
pub struct WorkingGate<'a, G: Gate, H: Clock + Sync> {
    gate: &'a G,
    clock: &'a H,
    nanos: u64,
}

impl<'a, G: Gate, H: Clock + Sync> Model for WorkingGate<'a, G, H> {
    ghost use Rattle.std.specs.Prelude.{ℕ};

    ghost Value = { ℕ };

    ghost view = { λ g. g.nanos };
}

impl<'a, G: Gate, H: Clock + Sync> WorkingGate<'a, G, H> {
    /// Works for that many nanoseconds by the clock. Where there are none, the clock is not read.
    pub fn new(gate: &'a G, clock: &'a H, nanos: u64) -> WorkingGate<'a, G, H>
        ensures { result ≡ nanos }
    {
        WorkingGate { gate, clock, nanos }
    }
}

impl<'a, G: Gate, H: Clock + Sync> Gate for WorkingGate<'a, G, H> {
    fn before(&self, seat: u32, task: u32) {
        self.gate.before(seat, task);
        if self.nanos > 0 {
            work(self.clock, Duration::from_nanos(self.nanos));
        }
    }
}

/// Looks at the clock until that much time has passed, and goes on at once where the clock can't be read.
fn work<H: Clock>(clock: &H, time: Duration) {
    let Ok(start) = Instant::now(clock) else {
        return;
    };
    for _ in 0..u64::MAX {
        match Instant::now(clock) {
            Ok(now) if now.duration_since(start) < time => hint::spin_loop(),
            _ => return,
        }
    }
}
