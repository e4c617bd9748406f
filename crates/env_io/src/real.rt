// The trusted edge: readers, writers and the clock of std.
ghost use Rattle.std.specs.Prelude.{◌≡◌, ◌≤◌, ◌⊎◌, ℕ, None, OnErr, OnOk};
ghost use Rattle.std.specs.Time.{instant_nanos};
ghost use Rattle.env_io.specs.Bytes.{Rose};
ghost use Rattle.env_io.specs.Elapsed.{after_reading, micros_passed, not_started};

use crate::{Clock, Failed, Sink, Source};
use std::io::{Read, Write};
use std::marker::Model;
use std::rt;
use std::snapshot::Snapshot;
use std::time::Instant;

/// Reads from a reader. Tests show that each of its errors is a failure, an interrupted read too.
///
/// It tells the bytes that the reader has left, if the reader told them at first. Standard input tells none.
#[derive(Drop)]
pub struct StdSource<R: Read> {
    reader: R,
    // The reader as it was at first, for clauses alone: a reader may begin to tell its bytes, and a source may not.
    first: Snapshot<R>,
    faults: u64,
}

impl<R: Read> Model for StdSource<R> {
    ghost use Rattle.std.specs.Prelude.{IsSome};
    ghost use Rattle.env_io.specs.Told.{Told, told_since};

    ghost Value = { Told };

    ghost view = { λ s. record {
      bytes = told_since (R.remaining s.first.value) (R.remaining s.reader);
      faults = s.faults;
    } };

    ghost invariant = { λ s. IsSome (R.remaining s.first.value) → IsSome (R.remaining s.reader) };
}

impl<R: Read> StdSource<R> {
    pub fn new(reader: R) -> StdSource<R>
        ensures bytes { result.bytes ≡ R.remaining reader }
        ensures faults { result.faults ≡ 0 }
    {
        StdSource {
            first: Snapshot::of(&reader),
            reader,
            faults: 0,
        }
    }
}

impl<R: Read> Source for StdSource<R> {
    ghost left = { λ s. s.bytes };

    ghost faults = { λ s. s.faults };

    fn take(&mut self, into: &mut [u8]) -> Result<usize, Failed> {
        match self.reader.read(into) {
            Ok(n) => Ok(n),
            Err(_) => {
                self.faults = self.faults.saturating_add(1);
                Err(Failed)
            }
        }
    }
}

/// Writes to a writer. Tests show that each of its errors is a failure, and so is a write that takes nothing of a piece.
///
/// It tells the bytes that the writer holds, if the writer told them at first. Standard output tells none. What a
/// buffered writer keeps back goes out by `flush`.
#[derive(Drop)]
pub struct StdSink<W: Write> {
    writer: W,
    // The writer as it was at first, for clauses alone: a writer may begin to tell its bytes, and a sink may not.
    first: Snapshot<W>,
    faults: u64,
}

impl<W: Write> Model for StdSink<W> {
    ghost use Rattle.std.specs.Prelude.{IsSome};
    ghost use Rattle.env_io.specs.Told.{Told, told_since};

    ghost Value = { Told };

    ghost view = { λ s. record {
      bytes = told_since (W.contents s.first.value) (W.contents s.writer);
      faults = s.faults;
    } };

    ghost invariant = { λ s. IsSome (W.contents s.first.value) → IsSome (W.contents s.writer) };
}

impl<W: Write> StdSink<W> {
    pub fn new(writer: W) -> StdSink<W>
        ensures bytes { result.bytes ≡ W.contents writer }
        ensures faults { result.faults ≡ 0 }
    {
        StdSink {
            first: Snapshot::of(&writer),
            writer,
            faults: 0,
        }
    }

    /// Hands on what the writer still keeps back, as a buffered one does.
    ///
    /// `Failed`: the writer's error. A part of what it kept back may have gone out.
    pub fn flush(&mut self) -> Result<(), Failed>
        ensures bytes { self.new.bytes ≡ self.old.bytes }
        ensures failed { OnErr result (Rose self.old.faults self.new.faults) }
        ensures steady { OnOk result (self.new.faults ≡ self.old.faults) }
        ensures faults { self.old.faults ≤ self.new.faults }
    {
        if self.writer.flush().is_err() {
            self.faults = self.faults.saturating_add(1);
            return Err(Failed);
        }
        Ok(())
    }
}

impl<W: Write> Sink for StdSink<W> {
    ghost holds = { λ s. s.bytes };

    ghost faults = { λ s. s.faults };

    fn put(&mut self, piece: &[u8]) -> Result<usize, Failed> {
        if piece.is_empty() {
            return Ok(0);
        }
        match self.writer.write(piece) {
            Ok(n) if n > 0 => Ok(n),
            _ => {
                self.faults = self.faults.saturating_add(1);
                Err(Failed)
            }
        }
    }
}

/// Gives the microseconds since it first could read the monotonic clock of the system, up to `u64::MAX`.
///
/// Where the system's clock cannot be read, or went back, it repeats its last reading, which is 0 at first.
/// No clause says what the system's clock reads.
#[derive(Drop)]
pub struct RealClock<H: rt::Clock> {
    rt: H,
    start: Option<Instant>,
    last: u64,
}

impl<H: rt::Clock> Model for RealClock<H> {
    ghost use Rattle.std.specs.Option.{option_map};
    ghost use Rattle.std.specs.Time.{instant_nanos};
    ghost use Rattle.env_io.specs.Elapsed.{Elapsed};

    ghost Value = { Elapsed };

    ghost view = { λ c. record { start = option_map instant_nanos c.start; last = c.last } };
}

impl<H: rt::Clock> RealClock<H> {
    pub fn new(rt: H) -> RealClock<H>
        ensures { result ≡ not_started }
    {
        RealClock {
            rt,
            start: None,
            last: 0,
        }
    }

    fn note(&mut self, reading: Instant)
        ensures { self.new ≡ after_reading self.old (instant_nanos reading) }
    {
        let start = *self.start.get_or_insert(reading);
        let passed = micros_between(start, reading);
        self.last = self.last.max(passed);
    }
}

impl<H: rt::Clock> Clock for RealClock<H> {
    ghost readings = { λ _ _. None };

    fn now(&mut self) -> u64
        ensures last { result ≡ self.new.last }
        ensures rises { self.old.last ≤ result }
        ensures reads { (self.new ≡ self.old) ⊎ ((moment : ℕ) × (self.new ≡ after_reading self.old moment)) }
    {
        if let Ok(reading) = Instant::now(&self.rt) {
            self.note(reading);
        }
        self.last
    }
}

fn micros_between(start: Instant, end: Instant) -> u64
    ensures { result ≡ micros_passed (instant_nanos start) (instant_nanos end) }
{
    let micros = end.duration_since(start).as_micros();
    u64::try_from(micros).unwrap_or(u64::MAX)
}
