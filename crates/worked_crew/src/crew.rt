//! Runs on threads, with bodies and gates of the tests' own.
ghost use Rattle.script_model.specs.Laws.Sound.{IsSound};

use env_io::{Gate, ListClock, OpenGate};
use env_pauses::Pauses;
use env_threads::{run_crew, run_shaken};
use std::alloc::{AllocError, Global};
use std::process::Abort;
use std::sync::atomic::{AtomicU64, Ordering};
use std::sync::{Arc, Wait};
use std::test::Fail;
use std::thread::Threads;
use std::{hint, rt};
use task_base::{Entry, Rows, Script};
use worked_calls::{Word, assert_log, bodies_of, script_of};

/// The log of a run of this script on threads. Its bodies share the word.
fn log_of<R: Threads + Wait + Sync, G: Gate>(
    rt: &R,
    alloc: Global,
    script: &Script,
    word: &Word,
    gate: &G,
) -> Result<Rows<Entry>, AllocError>
    requires { IsSound script.now }
{
    let bodies = bodies_of(alloc, script, word)?;
    let mut clock = ListClock::new(Vec::new(alloc));
    let env = run_crew(rt, alloc, script, bodies, &mut clock, gate)?;
    Ok(env.into_log())
}

/// The log of a run of this script on threads, with pauses. Its bodies share the word.
fn shaken_log_of<R: Threads + Wait + Sync + rt::Clock>(
    rt: &R,
    alloc: Global,
    script: &Script,
    word: &Word,
) -> Result<Rows<Entry>, AllocError>
    requires { IsSound script.now }
{
    let bodies = bodies_of(alloc, script, word)?;
    let mut clock = ListClock::new(Vec::new(alloc));
    let pauses = Pauses { most: 20, seed: 7 };
    let env = run_shaken(rt, alloc, script, bodies, &mut clock, &OpenGate, pauses)?;
    Ok(env.into_log())
}

/// What threads have counted.
fn assert_count(rt: &impl Abort, count: &AtomicU64, wanted: u64) {
    assert_eq!(rt; count.load(Ordering::SeqCst), wanted);
}

/// A gate that numbers its calls from 1, and keeps for each of two tasks the number of its call, and how many steps
/// were done before it.
#[derive(Drop)]
struct LookingGate {
    word: Word,
    calls: AtomicU64,
    places: [AtomicU64; 2],
    steps: [AtomicU64; 2],
}

impl LookingGate {
    /// The steps are counted by the word.
    fn new(word: Word) -> LookingGate {
        LookingGate {
            word,
            calls: AtomicU64::new(0),
            places: [AtomicU64::new(0), AtomicU64::new(0)],
            steps: [AtomicU64::new(0), AtomicU64::new(0)],
        }
    }
}

impl Gate for LookingGate {
    fn before(&self, _seat: u32, task: u32) {
        let place = self.calls.fetch_add(1, Ordering::SeqCst).wrapping_add(1);
        if let Some(kept) = self.places.get(task as usize) {
            kept.fetch_add(place, Ordering::SeqCst);
        }
        if let Some(kept) = self.steps.get(task as usize) {
            kept.fetch_add(self.word.load(Ordering::SeqCst), Ordering::SeqCst);
        }
    }
}

/// The gate was passed by task 0 and then by task 1, when all steps of task 0 were done.
fn assert_passed(rt: &impl Abort, gate: &LookingGate) {
    assert_count(rt, &gate.calls, 2);
    assert_count(rt, &gate.places[0], 1);
    assert_count(rt, &gate.places[1], 2);
    // Task 0 is stepped once for its step, and once more to see that none is left.
    assert_count(rt, &gate.steps[0], 0);
    assert_count(rt, &gate.steps[1], 2);
}

/// Two tasks of one sequence, under a policy that holds all work back until they are posted. The second one finds what the
/// first one left.
const ALONG: &str = "workers 1\n\
    runner 0 sequenced user_visible skip\n\
    task 0 add 5\ntask 1 mul 3\n\
    policy none\npost 0 0 0\npost 1 0 0\npolicy all\nflush\n";

/// The lines of the log of its only run.
const ALONG_LOG: &str = "0 0 policy none\n1 0 post 0 0 0 ok\n2 0 post 1 0 0 ok\n3 0 policy all\n\
    4 1 take 0 0 0\n5 1 end 0 5\n6 1 take 1 0 5\n7 1 end 1 15\n8 0 idle\n";

#[test]
fn gate_is_passed_once_a_task_before_its_first_step(rt: HostRuntime) -> Result<(), Fail> {
    let word = Arc::new(rt.alloc(), AtomicU64::new(0))?;
    let gate = LookingGate::new(Arc::try_clone(&word)?);
    let script = script_of(rt.alloc(), ALONG)?;
    let log = log_of(&rt, rt.alloc(), &script, &word, &gate)?;
    assert_log(rt.alloc(), &log, ALONG_LOG)?;
    assert_passed(&rt, &gate);
    assert_count(&rt, &word, 4);
    Ok(())
}

#[test]
fn shaken_run_is_a_run(rt: HostRuntime) -> Result<(), Fail> {
    let word = Arc::new(rt.alloc(), AtomicU64::new(0))?;
    let script = script_of(rt.alloc(), ALONG)?;
    let log = shaken_log_of(&rt, rt.alloc(), &script, &word)?;
    assert_log(rt.alloc(), &log, ALONG_LOG)
}

/// A gate at which each worker waits until three have come, and that counts those that saw it.
#[derive(Drop)]
struct MeetingGate {
    came: AtomicU64,
    met: AtomicU64,
}

impl MeetingGate {
    /// Looks so long that only a worker without a thread can be missing.
    fn sees_three(&self) -> bool {
        for _ in 0..2_000_000_000u64 {
            if self.came.load(Ordering::SeqCst) >= 3 {
                return true;
            }
            hint::spin_loop();
        }
        false
    }
}

impl Gate for MeetingGate {
    fn before(&self, _seat: u32, _task: u32) {
        self.came.fetch_add(1, Ordering::SeqCst);
        if self.sees_three() {
            self.met.fetch_add(1, Ordering::SeqCst);
        }
    }
}

/// Three tasks that may run side by side.
const SIDE_BY_SIDE: &str = "workers 3\n\
    runner 0 parallel user_visible skip\n\
    task 0 add 1\ntask 1 add 1\ntask 2 add 1\n\
    post 0 0 0\npost 1 0 0\npost 2 0 0\nflush\n";

#[test]
fn each_worker_has_a_thread_of_its_own(rt: HostRuntime) -> Result<(), Fail> {
    let word = Arc::new(rt.alloc(), AtomicU64::new(0))?;
    let gate = MeetingGate {
        came: AtomicU64::new(0),
        met: AtomicU64::new(0),
    };
    let script = script_of(rt.alloc(), SIDE_BY_SIDE)?;
    let log = log_of(&rt, rt.alloc(), &script, &word, &gate)?;
    assert!(rt; log.len() == 10);
    assert_count(&rt, &gate.met, 3);
    Ok(())
}
