/// How much a task matters, in rising importance (`base::TaskPriority` of Chromium's `task_traits.h`).
#[derive(Clone, Copy, Debug, PartialEq, Eq, PartialOrd, Ord)]
pub enum Priority {
    /// Nobody waits for it: it may be held back without limit.
    BestEffort,
    /// It shows to the user in the end, without having been asked for at this moment.
    UserVisible,
    /// The user is waiting for it.
    UserBlocking,
}

/// What shutdown does with a task (`base::TaskShutdownBehavior` of Chromium's `task_traits.h`).
#[derive(Clone, Copy, Debug, PartialEq, Eq)]
pub enum Behaviour {
    /// It is skipped if it has not started, and not waited for if it has.
    ContinueOnShutdown,
    /// It is skipped if it has not started, and waited for if it has.
    SkipOnShutdown,
    /// It runs, and shutdown waits for it.
    BlockShutdown,
}

/// What a runner asks for each of its tasks.
#[derive(Clone, Copy, Debug, PartialEq, Eq)]
pub struct Traits {
    pub priority: Priority,
    pub behaviour: Behaviour,
    /// Whether its tasks may open blocking scopes (`base::MayBlock`).
    pub may_block: bool,
}
