ghost use Rattle.std.specs.Prelude.{◌≡◌};

use std::hint;
use std::marker::Model;
use std::sync::atomic::{AtomicBool, Ordering};

/// A place that a worker passes between its take of a task and the task's first step, without holding the turn there.
///
/// A test of the threads holds workers up in it, or notes how many are in it at once. It is this project's own.
pub trait Gate: Sync {
    /// The worker of this seat is about to run this task. It returns.
    fn before(&self, seat: u32, task: u32);
}

/// The gate of a run: it does nothing.
#[derive(Clone, Copy, Debug)]
pub struct OpenGate;

impl Gate for OpenGate {
    fn before(&self, _seat: u32, _task: u32) {}
}

/// A gate that holds up the worker of one task until another task passes: only where the bodies of both are under way
/// at once does it go on in time.
///
/// It looks for the other task a given number of times and then lets the worker pass, so it never holds for ever.
///
/// Contracts see the two tasks and the number of looks. Of what it has seen no clause speaks: a plain atomic word tells
/// contracts nothing.
#[derive(Drop)]
pub struct HoldGate {
    held: u32,
    until: u32,
    turns: u64,
    passed: AtomicBool,
    failed: AtomicBool,
}

impl Model for HoldGate {
    ghost use Rattle.env_io.specs.Gates.{HoldView};

    ghost Value = { HoldView };

    ghost view = { λ g. record { held = g.held; until = g.until; turns = g.turns } };
}

impl HoldGate {
    /// Holds task `held` up until task `until` passes, and looks for it at most `turns` times.
    pub fn new(held: u32, until: u32, turns: u64) -> HoldGate
        ensures { result ≡ record { held = held; until = until; turns = turns } }
    {
        HoldGate {
            held,
            until,
            turns,
            passed: AtomicBool::new(false),
            failed: AtomicBool::new(false),
        }
    }

    /// Whether the held task was let go without the other one having passed. Once true it stays so.
    pub fn failed(&self) -> bool {
        self.failed.load(Ordering::SeqCst)
    }

    // Looks for the other task, and says whether it passed.
    fn sees_it_pass(&self) -> bool {
        for _ in 0..self.turns {
            if self.passed.load(Ordering::SeqCst) {
                return true;
            }
            hint::spin_loop();
        }
        false
    }
}

impl Gate for HoldGate {
    fn before(&self, _seat: u32, task: u32) {
        if task == self.until {
            self.passed.store(true, Ordering::SeqCst);
        }
        if task == self.held && !self.sees_it_pass() {
            self.failed.store(true, Ordering::SeqCst);
        }
    }
}
