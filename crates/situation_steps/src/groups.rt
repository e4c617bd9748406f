//! How much work the groups of workers do, and may.
ghost use Rattle.std.specs.Prelude.{◌≡◌, ◌+◌, ◌^◌, ◌<◌, ◌≤◌, false, true, nat_le, ◌&&◌};
ghost use Rattle.list_laws.specs.Lists.{holds_of};
ghost use Rattle.task_base.specs.Groups.{Background, group_of, same_group};
ghost use Rattle.task_model.specs.Capacity.{best_limit, is_best_in, is_in, limit};
ghost use Rattle.pool_laws.specs.Room.{share};
ghost use Rattle.log_count.specs.Parts.{job_in, runs_in, scope_in, taken_in};
ghost use Rattle.log_count.specs.Sources.{blocked_in, has_room_for, load_in, work_in};
ghost use Rattle.situation_steps.specs.Groups.{counts_with, scope_counts_in};

use crate::declared::{is_best_effort, priority_of_job};
use crate::state::Situation;
use task_base::{Priority, Script, SeatNo};

/// Whether work of a priority is the background group's.
fn is_background(script: &Script, priority: Priority) -> bool
    ensures { result ≡ is_in script.now Background priority }
{
    is_best_effort(priority) && script.background > 0
}

/// Whether work of two priorities is of one group.
pub(crate) fn is_same_group(script: &Script, one: Priority, other: Priority) -> bool
    ensures { result ≡ same_group (group_of script.now one) (group_of script.now other) }
{
    let background = is_background(script, one);
    if is_background(script, other) {
        background
    } else {
        !background
    }
}

/// Whether work of one priority counts with work of another: in its group, or with the best-effort work of that alone.
fn counts_with(script: &Script, priority: Priority, best: bool, work: Priority) -> bool
    ensures { result ≡ counts_with script.now priority best work }
{
    let same = is_same_group(script, work, priority);
    if best {
        same && is_best_effort(work)
    } else {
        same
    }
}

/// How much work the group of a priority may run by the script.
fn limit_with(script: &Script, priority: Priority) -> u32
    ensures { result ≡ limit script.now (group_of script.now priority) }
{
    if is_background(script, priority) {
        script.background
    } else {
        script.foreground
    }
}

/// How much best-effort work the group of a priority may run by the script.
fn best_limit_with(script: &Script, priority: Priority) -> u32
    ensures { result ≡ best_limit script.now (group_of script.now priority) }
{
    if is_background(script, priority) {
        script.background
    } else {
        script.foreground_best
    }
}

/// What a test adds to a count.
pub(crate) fn share(passes: bool) -> u64
    ensures share { result ≡ share passes }
    ensures few { result ≤ 1 }
{
    if passes { 1 } else { 0 }
}

impl Situation {
    /// The priority of the pool's work that a seat does.
    fn work(&self, script: &Script, seat: SeatNo) -> Option<Priority>
        ensures { result ≡ work_in script.now self.now seat }
    {
        match self.runs(seat) {
            Some(_) => self.taken(seat),
            None => match self.job(seat) {
                None => None,
                Some(job) => Some(priority_of_job(script, job)),
            },
        }
    }

    /// Whether a seat does work that counts with work of a priority.
    fn does(&self, script: &Script, priority: Priority, best: bool, seat: SeatNo) -> bool
        ensures { result ≡ holds_of (counts_with script.now priority best) (work_in script.now self.now seat) }
    {
        match self.work(script, seat) {
            None => false,
            Some(work) => counts_with(script, priority, best, work),
        }
    }

    /// Whether the open scope of a seat's task counts by now.
    fn scope_counts(&self, seat: SeatNo) -> bool
        ensures { result ≡ scope_counts_in self.now seat }
    {
        match self.scope(seat) {
            None => false,
            Some(from) => from <= self.moment,
        }
    }

    /// Whether a seat is blocked in a task that counts with work of a priority.
    fn is_blocked(&self, script: &Script, priority: Priority, best: bool, seat: SeatNo) -> bool
        ensures { result ≡ (holds_of (counts_with script.now priority best) (taken_in self.now seat) && scope_counts_in self.now seat) }
    {
        match self.taken(seat) {
            None => false,
            Some(work) => counts_with(script, priority, best, work) && self.scope_counts(seat),
        }
    }

    /// How many workers do work that counts with work of a priority.
    #[tactic(auto, unfolding(log_count::specs::Sources::load_in))]
    fn load(&self, script: &Script, priority: Priority, best: bool) -> u64
        ensures load { result ≡ load_in script.now self.now (counts_with script.now priority best) }
        ensures few { result < 2 ^ 32 }
    {
        let mut count = 0;
        for seat in 0..script.workers {
            count += share(self.does(script, priority, best, seat + 1));
        }
        count
    }

    /// How many workers are blocked in tasks that count with work of a priority.
    #[tactic(auto, unfolding(log_count::specs::Sources::blocked_in))]
    fn blocked(&self, script: &Script, priority: Priority, best: bool) -> u64
        ensures blocked { result ≡ blocked_in script.now self.now (counts_with script.now priority best) }
        ensures few { result < 2 ^ 32 }
    {
        let mut count = 0;
        for seat in 0..script.workers {
            count += share(self.is_blocked(script, priority, best, seat + 1));
        }
        count
    }

    /// How much work the group of a priority may run now.
    fn capacity(&self, script: &Script, priority: Priority) -> u64
        ensures { result ≡ limit script.now (group_of script.now priority)
            + blocked_in script.now self.now (is_in script.now (group_of script.now priority)) }
    {
        u64::from(limit_with(script, priority)) + self.blocked(script, priority, false)
    }

    /// How much best-effort work the group of a priority may run now.
    fn best_capacity(&self, script: &Script, priority: Priority) -> u64
        ensures { result ≡ best_limit script.now (group_of script.now priority)
            + blocked_in script.now self.now (is_best_in script.now (group_of script.now priority)) }
    {
        u64::from(best_limit_with(script, priority)) + self.blocked(script, priority, true)
    }

    /// Whether work of a priority may start.
    #[tactic(auto, unfolding(log_count::specs::Sources::has_room_for))]
    pub(crate) fn has_room(&self, script: &Script, priority: Priority) -> bool
        ensures { result ≡ has_room_for script.now self.now priority }
    {
        self.load(script, priority, false) < self.capacity(script, priority)
            && (!is_best_effort(priority)
                || self.load(script, priority, true) < self.best_capacity(script, priority))
    }

    /// Whether the group of a priority does as much work as it may.
    pub(crate) fn is_full(&self, script: &Script, priority: Priority) -> bool
        ensures { result ≡ nat_le
            (limit script.now (group_of script.now priority) + blocked_in script.now self.now (is_in script.now (group_of script.now priority)))
            (load_in script.now self.now (is_in script.now (group_of script.now priority))) }
    {
        self.capacity(script, priority) <= self.load(script, priority, false)
    }
}
