//! When two situations are the same.
ghost use Rattle.std.specs.Prelude.{◌≡◌, Bool};
ghost use Rattle.hist_model.specs.Script.{same_policy};
ghost use Rattle.log_count.specs.Equal.{same_answer, same_behaviour, same_driver, same_job, same_list, same_number, same_option};
ghost use Rattle.log_count.specs.Equal.{same_phase, same_priority, same_seat, same_situation, same_task, same_unripe, same_waiter};

use crate::candidate::importance;
use crate::parts::{DriverAt, JobAt, Running, SeatAt, Unripe, Waiter, Waits};
use crate::state::Situation;
use task_base::{Behaviour, Phase, Policy, Priority};

/// Values that are compared.
trait Same {
    // When two are the same, as a test.
    ghost same: { Self → Self → Bool };

    /// Whether two are the same.
    fn is_same(&self, other: &Self) -> bool
        ensures { result ≡ same self.now other.now };
}

impl Same for u64 {
    ghost same = { same_number };

    fn is_same(&self, other: &u64) -> bool {
        *self == *other
    }
}

impl Same for u32 {
    ghost same = { same_number };

    fn is_same(&self, other: &u32) -> bool {
        *self == *other
    }
}

impl Same for bool {
    ghost same = { same_answer };

    fn is_same(&self, other: &bool) -> bool {
        if *self { *other } else { !*other }
    }
}

impl Same for Priority {
    ghost same = { same_priority };

    fn is_same(&self, other: &Priority) -> bool {
        importance(*self) == importance(*other)
    }
}

impl Same for Behaviour {
    ghost same = { same_behaviour };

    fn is_same(&self, other: &Behaviour) -> bool {
        matches!(
            (*self, *other),
            (Behaviour::ContinueOnShutdown, Behaviour::ContinueOnShutdown)
                | (Behaviour::SkipOnShutdown, Behaviour::SkipOnShutdown)
                | (Behaviour::BlockShutdown, Behaviour::BlockShutdown)
        )
    }
}

impl Same for Running {
    ghost same = { same_task };

    fn is_same(&self, other: &Running) -> bool {
        self.task == other.task
            && self.home == other.home
            && self.found == other.found
            && self.is_main.is_same(&other.is_main)
    }
}

impl Same for SeatAt {
    ghost same = { same_seat };

    fn is_same(&self, other: &SeatAt) -> bool {
        same_options(&self.runs, &other.runs)
            && self.acts == other.acts
            && same_options(&self.taken, &other.taken)
            && same_options(&self.scope, &other.scope)
            && same_options(&self.behaviour, &other.behaviour)
            && same_options(&self.job, &other.job)
    }
}

impl Same for Waiter {
    ghost same = { same_waiter };

    fn is_same(&self, other: &Waiter) -> bool {
        match (self.waits, other.waits) {
            (
                Waits::Task { task, home, delay },
                Waits::Task {
                    task: other_task,
                    home: other_home,
                    delay: other_delay,
                },
            ) => task == other_task && home == other_home && delay == other_delay,
            (Waits::OfJob(job), Waits::OfJob(other_job)) => job == other_job,
            _ => false,
        }
    }
}

impl Same for Unripe {
    ghost same = { same_unripe };

    fn is_same(&self, other: &Unripe) -> bool {
        self.task == other.task
            && self.home == other.home
            && self.delay == other.delay
            && self.ripe == other.ripe
    }
}

impl Same for JobAt {
    ghost same = { same_job };

    fn is_same(&self, other: &JobAt) -> bool {
        same_options(&self.reply, &other.reply)
            && self.cancelled.is_same(&other.cancelled)
            && self.claims == other.claims
    }
}

/// Whether neither value is there, or both are, and are the same.
fn same_options<T: Same>(one: &Option<T>, other: &Option<T>) -> bool
    ensures { result ≡ same_option T.same one.now other.now }
{
    match (one, other) {
        (None, None) => true,
        (Some(one), Some(other)) => one.is_same(other),
        _ => false,
    }
}

/// Whether two lists are of one length, and the same place by place.
fn same_lists<T: Same>(one: &[T], other: &[T]) -> bool
    ensures { result ≡ same_list T.same one.now other.now }
{
    if one.len() != other.len() {
        return false;
    }
    for place in 0..one.len() {
        if !one[place].is_same(&other[place]) {
            return false;
        }
    }
    true
}

/// Whether the driver is at the same place.
fn same_driver(one: &DriverAt, other: &DriverAt) -> bool
    ensures { result ≡ same_driver one.now other.now }
{
    one.left == other.left && one.made == other.made
}

/// Whether two phases are the same.
fn same_phase(one: Phase, other: Phase) -> bool
    ensures { result ≡ same_phase one other }
{
    matches!(
        (one, other),
        (Phase::Running, Phase::Running)
            | (Phase::Started, Phase::Started)
            | (Phase::Done, Phase::Done)
    )
}

/// Whether two policies are the same.
fn same_policy(one: Policy, other: Policy) -> bool
    ensures { result ≡ same_policy one other }
{
    matches!(
        (one, other),
        (Policy::All, Policy::All)
            | (Policy::Foreground, Policy::Foreground)
            | (Policy::Nothing, Policy::Nothing)
    )
}

impl Situation {
    /// Whether two situations are the same.
    #[tactic(auto, unfolding(log_count::specs::Equal::same_situation))]
    pub fn same(&self, other: &Situation) -> bool
        ensures { result ≡ same_situation self.now other.now }
    {
        same_driver(&self.driver, &other.driver)
            && self.moment == other.moment
            && same_phase(self.phase, other.phase)
            && same_policy(self.policy, other.policy)
            && same_lists(self.priorities.as_slice(), other.priorities.as_slice())
            && same_lists(self.seats.as_slice(), other.seats.as_slice())
            && same_lists(self.line.as_slice(), other.line.as_slice())
            && same_lists(self.unripe.as_slice(), other.unripe.as_slice())
            && same_lists(self.jobs.as_slice(), other.jobs.as_slice())
            && same_lists(self.cells.as_slice(), other.cells.as_slice())
            && self.blocks == other.blocks
            && self.skips == other.skips
    }
}
