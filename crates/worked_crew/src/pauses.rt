//! The gates and the desk that hold threads up, by a clock that is made up.
ghost use Rattle.script_model.specs.Laws.Sound.{IsSound};

use env_crew::drive;
use env_io::{Gate, HoldGate, ListClock, OpenGate};
use env_pauses::{Pauses, Pausing, PausingDesk, ShakingGate, WorkingGate};
use env_shared::Shared;
use std::alloc::{AllocError, Global};
use std::io;
use std::process::Abort;
use std::rt::Clock;
use std::sync::atomic::{AtomicU64, Ordering};
use std::sync::{Arc, Wait};
use std::test::Fail;
use std::time::Duration;
use task_base::{Rows, Script};
use worked_calls::{Word, bodies_of, script_of};

/// A clock that stands a microsecond later at each reading, up to a last one after which it can't be read, and that notes the
/// sleeps that are asked of it.
#[derive(Drop)]
struct NotingClock {
    last: u64,
    readings: AtomicU64,
    sleeps: AtomicU64,
    slept: AtomicU64,
}

impl NotingClock {
    fn new(last: u64) -> NotingClock {
        NotingClock {
            last,
            readings: AtomicU64::new(0),
            sleeps: AtomicU64::new(0),
            slept: AtomicU64::new(0),
        }
    }
}

impl Clock for NotingClock {
    fn monotonic(&self) -> io::Result<Duration> {
        let before = self.readings.fetch_add(1, Ordering::SeqCst);
        if before < self.last {
            Ok(Duration::from_micros(before))
        } else {
            Err(io::Error::from(io::ErrorKind::Unsupported))
        }
    }

    fn since_1970(&self) -> io::Result<Duration> {
        Err(io::Error::from(io::ErrorKind::Unsupported))
    }

    fn sleep(&self, duration: Duration) {
        let micros = u64::try_from(duration.as_micros()).unwrap_or(u64::MAX);
        self.sleeps.fetch_add(1, Ordering::SeqCst);
        self.slept.fetch_add(micros, Ordering::SeqCst);
    }
}

/// The clock was asked for that many sleeps, and they come to that many microseconds.
fn assert_slept(rt: &impl Abort, clock: &NotingClock, sleeps: u64, micros: u64) {
    assert_eq!(rt; clock.sleeps.load(Ordering::SeqCst), sleeps);
    assert_eq!(rt; clock.slept.load(Ordering::SeqCst), micros);
}

#[test]
fn pause_of_a_task_is_up_to_seed_and_task(rt: HostRuntime) {
    let clock = NotingClock::new(0);
    let inner = HoldGate::new(1, 0, 1);
    let gate = ShakingGate::new(
        &inner,
        &clock,
        Pauses {
            most: 1000,
            seed: 7,
        },
    );
    gate.before(1, 0);
    assert_slept(&rt, &clock, 1, 947);
    gate.before(2, 0);
    assert_slept(&rt, &clock, 2, 1894);
    gate.before(1, 1);
    assert_slept(&rt, &clock, 3, 2410);
    // Task 0 passed the gate inside before task 1 did.
    assert!(rt; !inner.failed());
    ShakingGate::new(
        &inner,
        &clock,
        Pauses {
            most: 1000,
            seed: 8,
        },
    )
    .before(1, 0);
    assert_slept(&rt, &clock, 4, 2705);
    ShakingGate::new(&inner, &clock, Pauses { most: 0, seed: 7 }).before(1, 0);
    assert_slept(&rt, &clock, 4, 2705);
}

#[test]
fn work_takes_its_time_and_no_more(rt: HostRuntime) {
    // The first reading is the start, and the one 5 microseconds after it the last.
    let clock = NotingClock::new(100);
    let inner = HoldGate::new(1, 0, 1);
    WorkingGate::new(&inner, &clock, 5000).before(1, 0);
    assert_eq!(rt; clock.readings.load(Ordering::SeqCst), 6);
    WorkingGate::new(&inner, &clock, 0).before(1, 1);
    assert_eq!(rt; clock.readings.load(Ordering::SeqCst), 6);
    assert!(rt; !inner.failed());
    // A clock that can't be read any more ends the work.
    let clock = NotingClock::new(3);
    WorkingGate::new(&inner, &clock, 5000).before(1, 0);
    assert_eq!(rt; clock.readings.load(Ordering::SeqCst), 4);
}

/// Performs a script at a desk that pauses by this clock, with no worker.
fn drive_alone<R: Wait>(
    rt: &R,
    alloc: Global,
    script: &Script,
    word: &Word,
    clock: &NotingClock,
    pauses: Pauses,
) -> Result<(), AllocError>
    requires { IsSound script.now }
{
    let bodies = bodies_of(alloc, script, word)?;
    let (shared, first) = Shared::open(alloc, script.copy(alloc)?, bodies)?;
    let mut desk = PausingDesk::new(shared.desk(first), Some(Pausing::new(clock, pauses)));
    let mut spare = Rows::new(alloc);
    let mut readings = ListClock::new(Vec::new(alloc));
    drive(rt, &mut desk, &mut spare, script, &mut readings, &OpenGate);
    Ok(())
}

#[test]
fn driver_pauses_before_each_entry(rt: HostRuntime) -> Result<(), Fail> {
    let word = Arc::new(rt.alloc(), AtomicU64::new(0))?;
    let script = script_of(rt.alloc(), "workers 1\npolicy none\ntick 2\npolicy all\n")?;
    let clock = NotingClock::new(0);
    let pauses = Pauses {
        most: 1000,
        seed: 7,
    };
    drive_alone(&rt, rt.alloc(), &script, &word, &clock, pauses)?;
    assert_slept(&rt, &clock, 4, 2409);
    Ok(())
}
