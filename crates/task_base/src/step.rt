ghost use Rattle.std.specs.Prelude.{◌≡◌};
ghost use Rattle.task_base.specs.Steps.{apply_step, is_act};

use crate::script::{QueueId, RunnerId, TaskId};

/// Whether a task that opens a blocking scope surely blocks (`base::BlockingType` of Chromium's
/// `scoped_blocking_call.h`).
#[derive(Clone, Copy, Debug, PartialEq, Eq)]
pub enum Scope {
    /// It may block: the scope counts once it has been open for the script's threshold.
    May,
    /// It will block: the scope counts at once.
    Will,
}

/// One step of a task (this project's own rule). A compute step (`Add`, `Mul`, `Set`) changes the value of
/// the cell that the task was given; each other one, an act step, makes an entry of the history.
#[derive(Clone, Copy, Debug, PartialEq, Eq)]
pub enum Step {
    /// Adds to the value, modulo 2^64.
    Add(u64),
    /// Multiplies the value, modulo 2^64.
    Mul(u64),
    /// Puts another value in its place.
    Set(u64),
    /// Posts a task to a runner, with a delay in microseconds.
    Post {
        task: TaskId,
        runner: RunnerId,
        delay: u64,
    },
    /// Posts a task to a main queue, with a delay in microseconds.
    Main {
        task: TaskId,
        queue: QueueId,
        delay: u64,
    },
    /// Opens a blocking scope.
    Block(Scope),
    /// Closes the blocking scope.
    Unblock,
}

/// The value that a step leaves. An act step leaves it as it is.
pub fn apply(step: &Step, value: u64) -> u64
    ensures { result ≡ apply_step step.now value }
{
    match *step {
        Step::Add(by) => value.wrapping_add(by),
        Step::Mul(by) => value.wrapping_mul(by),
        Step::Set(to) => to,
        Step::Post { .. } | Step::Main { .. } | Step::Block(_) | Step::Unblock => value,
    }
}

/// Whether a step makes an entry of the history.
pub fn is_act(step: &Step) -> bool
    ensures { result ≡ is_act step.now }
{
    match *step {
        Step::Add(_) | Step::Mul(_) | Step::Set(_) => false,
        Step::Post { .. } | Step::Main { .. } | Step::Block(_) | Step::Unblock => true,
    }
}
