//! The outside: streams and the clock of the system, and a gate that holds up.
ghost use Rattle.std.specs.Prelude.{◌≤◌, IfOk};

use env_io::{Clock, Failed, Gate, HoldGate, RealClock, Sink, Source, StdSink, StdSource, put_all};
use std::cell::Cell;
use std::io::{Error, ErrorKind, Read, Result as IoResult, Write};
use std::time::Duration;

// Calls of the outside, of which the second fails, and the third takes or gives nothing.
#[derive(Drop)]
struct Rough {
    calls: u8,
}

impl Rough {
    fn next(&mut self) -> IoResult<usize>
        ensures { IfOk result (λ n. n ≤ 1) }
    {
        self.calls = self.calls.saturating_add(1);
        match self.calls {
            2 => Err(Error::from(ErrorKind::Interrupted)),
            3 => Ok(0),
            _ => Ok(1),
        }
    }
}

impl Read for Rough {
    fn read(&mut self, buf: &mut [u8]) -> IoResult<usize> {
        Ok(self.next()?.min(buf.len()))
    }
}

impl Write for Rough {
    fn write(&mut self, buf: &[u8]) -> IoResult<usize> {
        Ok(self.next()?.min(buf.len()))
    }

    fn flush(&mut self) -> IoResult<()> {
        self.next()?;
        Ok(())
    }
}

#[test]
fn each_error_of_a_stream_is_a_failure(rt: HostRuntime) {
    let mut source = StdSource::new(Rough { calls: 0 });
    for wanted in [Ok(1), Err(Failed), Ok(0), Ok(1)] {
        assert_eq!(rt; source.take(&mut [0; 2]), wanted);
    }
    let mut sink = StdSink::new(Rough { calls: 0 });
    assert_eq!(rt; put_all(&mut sink, b"abcd"), Err(Failed));
    for wanted in [Err(Failed), Ok(1)] {
        assert_eq!(rt; sink.put(b"ab"), wanted);
    }
    let mut held_back = StdSink::new(Rough { calls: 0 });
    for wanted in [Ok(()), Err(Failed), Ok(())] {
        assert_eq!(rt; held_back.flush(), wanted);
    }
}

// A clock of the system that reads these moments in turn, and fails where there is none.
#[derive(Drop)]
struct Moments {
    micros: [Option<u64>; 6],
    calls: Cell<usize>,
}

impl std::rt::Clock for Moments {
    fn monotonic(&self) -> IoResult<Duration> {
        let call = self.calls.get();
        self.calls.set(call.saturating_add(1));
        match self.micros.get(call) {
            Some(Some(micros)) => Ok(Duration::from_micros(*micros)),
            _ => Err(Error::from(ErrorKind::Other)),
        }
    }

    fn since_1970(&self) -> IoResult<Duration> {
        self.monotonic()
    }
}

#[test]
fn real_clock_counts_from_its_first_reading(rt: HostRuntime) {
    let micros = [
        None,
        Some(1_000),
        Some(1_250),
        None,
        Some(1_100),
        Some(3_000_000),
    ];
    let mut clock = RealClock::new(Moments {
        micros,
        calls: Cell::new(0),
    });
    for wanted in [0, 0, 250, 250, 250, 2_999_000, 2_999_000] {
        assert_eq!(rt; clock.now(), wanted);
    }
}

#[test]
fn hold_gate_looks_for_the_other_task(rt: HostRuntime) {
    let gate = HoldGate::new(0, 1, 1_000);
    gate.before(1, 2);
    assert!(rt; !gate.failed());
    gate.before(1, 0);
    assert!(rt; gate.failed());
    gate.before(2, 1);
    assert!(rt; gate.failed());
    for (looks, fails) in [(1_000, false), (0, true)] {
        let gate = HoldGate::new(0, 1, looks);
        gate.before(2, 1);
        gate.before(1, 0);
        assert_eq!(rt; gate.failed(), fails, "{looks} looks");
    }
}
