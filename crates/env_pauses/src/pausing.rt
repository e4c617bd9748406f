ghost use Rattle.std.specs.Prelude.{◌≡◌, ◌≤◌};
ghost use Rattle.rand_pcg.specs.Pcg.{pcg32};
ghost use Rattle.env_pauses.specs.Pauses.{draws_of, driver_stream, scaled};

use crate::pauses::{Pauses, scale};
use rand_core::utils::NextWord;
use rand_pcg::Pcg32;
use std::marker::Model;
use std::rt::Clock;
use std::time::Duration;
use std::{io, thread};

// The stream of the driver's draws. A task draws from the stream of its number, and none has this one.
const DRIVER_STREAM: u64 = 1 << 32;

/// Pauses that are drawn one after the other: the longest one, in microseconds, and the generator of the draws.
#[derive(Drop)]
pub struct Draws {
    most: u64,
    generator: Pcg32,
}

impl Draws {
    // The next pause, in microseconds.
    fn next(&mut self) -> u64
        ensures drawn { result ≡ scaled self.old.most (pcg32 self.old.generator).0 }
        ensures within { result ≤ self.old.most }
        ensures moved { self.new.generator ≡ (pcg32 self.old.generator).1 }
        ensures most { self.new.most ≡ self.old.most }
    {
        scale(self.generator.next_word(), self.most)
    }
}

/// The pauses of the driver, and the clock by which its thread sleeps in them.
///
/// Contracts see the draws of those that are still to come.
#[derive(Drop)]
pub struct Pausing<'a, H: Clock> {
    clock: &'a H,
    draws: Draws,
}

impl<'a, H: Clock> Model for Pausing<'a, H> {
    ghost use Rattle.env_pauses.specs.declared.pausing.Draws.{Draws};

    ghost Value = { Draws };

    ghost view = { λ p. p.draws };
}

impl<'a, H: Clock> Pausing<'a, H> {
    /// All of the driver's pauses are to come.
    pub fn new(clock: &'a H, pauses: Pauses) -> Pausing<'a, H>
        ensures most { result.most ≡ pauses.most }
        ensures start { result.generator ≡ draws_of pauses.seed driver_stream }
    {
        let draws = Draws {
            most: pauses.most,
            generator: Pcg32::new(pauses.seed, DRIVER_STREAM),
        };
        Pausing { clock, draws }
    }

    /// Holds the thread up for the next pause.
    pub(crate) fn pause(&mut self)
        ensures moved { self.new.generator ≡ (pcg32 self.old.generator).1 }
        ensures most { self.new.most ≡ self.old.most }
    {
        sleep(self.clock, self.draws.next());
    }
}

/// The thread sleeps for that many microseconds. Where there are none, it goes on without a call.
pub(crate) fn sleep<H: Clock>(clock: &H, micros: u64) {
    if micros > 0 {
        thread::sleep(clock, Duration::from_micros(micros));
    }
}

/// The clock of a run that never pauses. It can't be read, and a sleep by it is none.
#[derive(Clone, Copy, Debug)]
pub struct NoClock;

impl Clock for NoClock {
    fn monotonic(&self) -> io::Result<Duration> {
        Err(io::Error::from(io::ErrorKind::Unsupported))
    }

    fn since_1970(&self) -> io::Result<Duration> {
        Err(io::Error::from(io::ErrorKind::Unsupported))
    }
}
