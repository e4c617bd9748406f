ghost use Rattle.std.specs.Prelude.{◌≡◌};
ghost use Rattle.task_base.specs.Groups.{is_best_effort};
ghost use Rattle.thread_group.specs.Work.{scope_counts};

use task_base::Scope;
use task_traits::Priority;

/// A blocking scope that work has open (Chromium's `scoped_blocking_call.h`).
#[derive(Clone, Copy, Debug, PartialEq, Eq)]
pub struct OpenScope {
    /// Whether it surely blocks.
    pub scope: Scope,
    /// The moment at which it was opened, in microseconds.
    pub since: u64,
}

/// What a seat runs: a task, or its share of a job.
#[derive(Clone, Copy, Debug, PartialEq, Eq)]
pub struct Work {
    /// How much it matters.
    pub priority: Priority,
    /// The blocking scope that it has open.
    pub scope: Option<OpenScope>,
}

impl OpenScope {
    /// Whether it counts at a moment, under a threshold in microseconds.
    pub(crate) fn counts(&self, threshold: u64, now: u64) -> bool
        ensures { result ≡ scope_counts threshold now self.now }
    {
        match self.scope {
            Scope::Will => true,
            Scope::May => self
                .since
                .checked_add(threshold)
                .is_some_and(|due| due <= now),
        }
    }
}

/// Whether work of a priority is best-effort work.
pub(crate) fn is_best_effort(priority: Priority) -> bool
    ensures { result ≡ is_best_effort priority }
{
    priority == Priority::BestEffort
}
