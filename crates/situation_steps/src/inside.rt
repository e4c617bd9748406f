//! Who is inside a job, what runs of a sequence, and what a job lets in.
ghost use Rattle.std.specs.Prelude.{◌≡◌, ◌<◌, ◌≤◌, ◌^◌, ◌==◌, ◌&&◌, length, is_none, not};
ghost use Rattle.list_laws.specs.Lists.{holds_of};
ghost use Rattle.task_model.specs.Blockers.{is_block, is_skip};
ghost use Rattle.task_model.specs.Jobs.{items_of};
ghost use Rattle.task_model.specs.Refusal.{behaviour_of_job};
ghost use Rattle.task_model.specs.Seats.{runs_of};
ghost use Rattle.log_count.specs.Parts.{job_in, reply_in, runs_in};
ghost use Rattle.log_count.specs.Sources.{done_in, inside_in, may_enter_in, runs_sequence_in};
ghost use Rattle.log_count.specs.Ways.{is_empty_in, is_finished_in, is_quiet_in, is_whole_in};
ghost use Rattle.situation_steps.specs.Jobs.{has_place_in};

use crate::declared::{behaviour_of_job, cap_of, items_of, sequence_of};
use crate::groups::share;
use crate::state::Situation;
use task_base::{JobId, Script, SeatNo};
use task_traits::forbids;

impl Situation {
    /// Whether a seat runs a task of a sequence.
    fn runs_of(&self, script: &Script, sequence: usize, seat: SeatNo) -> bool
        ensures { result ≡ holds_of (runs_of script.now sequence) (runs_in self.now seat) }
    {
        match self.runs(seat) {
            None => false,
            Some(runs) => !runs.is_main && sequence_of(script, runs.home, runs.task) == sequence,
        }
    }

    /// Whether some seat runs a task of a sequence.
    #[tactic(auto, unfolding(log_count::specs::Sources::runs_sequence_in))]
    pub(crate) fn runs_sequence(&self, script: &Script, sequence: usize) -> bool
        ensures { result ≡ runs_sequence_in script.now self.now sequence }
    {
        for seat in 0..u64::from(script.workers) + 1 {
            if self.runs_of(script, sequence, seat as SeatNo) {
                return true;
            }
        }
        false
    }

    /// Whether a seat is inside a job.
    fn is_inside(&self, job: JobId, seat: SeatNo) -> bool
        ensures { result ≡ holds_of (λ j. j == job) (job_in self.now seat) }
    {
        match self.job(seat) {
            None => false,
            Some(inside) => inside == job,
        }
    }

    /// How many seats are inside a job.
    #[tactic(auto, unfolding(log_count::specs::Sources::inside_in))]
    pub(crate) fn inside(&self, script: &Script, job: JobId) -> u64
        ensures inside { result ≡ length (inside_in script.now self.now job) }
        ensures few { result ≤ 2 ^ 32 }
    {
        let mut count = 0;
        for seat in 0..u64::from(script.workers) + 1 {
            count += share(self.is_inside(job, seat as SeatNo));
        }
        count
    }

    /// How many items of a job are done.
    pub(crate) fn done(&self, script: &Script, job: JobId) -> u64
        ensures { result ≡ done_in script.now self.now job }
    {
        u64::from(self.claimed(job)).saturating_sub(self.inside(script, job))
    }

    /// Whether nobody is inside a job.
    pub(crate) fn is_empty(&self, script: &Script, job: JobId) -> bool
        ensures { result ≡ is_empty_in script.now self.now job }
    {
        self.inside(script, job) == 0
    }

    /// Whether a job was accepted.
    pub(crate) fn is_accepted(&self, job: JobId) -> bool
        ensures { result ≡ holds_of (λ ok. ok) (reply_in self.now job) }
    {
        match self.reply(job) {
            None => false,
            Some(ok) => ok,
        }
    }

    /// Whether a job was refused.
    pub(crate) fn is_refused(&self, job: JobId) -> bool
        ensures { result ≡ holds_of (λ ok. not ok) (reply_in self.now job) }
    {
        match self.reply(job) {
            None => false,
            Some(ok) => !ok,
        }
    }

    /// Whether all items of a job are done.
    pub(crate) fn is_through(&self, script: &Script, job: JobId) -> bool
        ensures { result ≡ (done_in script.now self.now job == items_of script.now job) }
    {
        self.done(script, job) == u64::from(items_of(script, job))
    }

    /// Whether fewer are inside a job than may be.
    fn has_place(&self, script: &Script, job: JobId) -> bool
        ensures { result ≡ has_place_in script.now self.now job }
    {
        let left = u64::from(items_of(script, job)).saturating_sub(self.done(script, job));
        self.inside(script, job) < u64::from(cap_of(script, job)).min(32).min(left)
    }

    /// Whether a job may be entered.
    #[tactic(auto, unfolding(log_count::specs::Sources::may_enter_in))]
    pub(crate) fn may_enter(&self, script: &Script, job: JobId) -> bool
        ensures { result ≡ may_enter_in script.now self.now job }
    {
        self.is_accepted(job)
            && !self.is_cancelled(job)
            && !forbids(self.phase, behaviour_of_job(script, job))
            && self.claimed(job) < items_of(script, job)
            && self.has_place(script, job)
    }

    /// Whether a seat runs no task and is inside no job.
    fn is_free(&self, seat: SeatNo) -> bool
        ensures { result ≡ (is_none (runs_in self.now seat) && is_none (job_in self.now seat)) }
    {
        self.runs(seat).is_none() && self.job(seat).is_none()
    }

    /// Whether no seat runs a task, and none is inside a job.
    #[tactic(auto, unfolding(log_count::specs::Ways::is_quiet_in))]
    pub(crate) fn is_quiet(&self, script: &Script) -> bool
        ensures { result ≡ is_quiet_in script.now self.now }
    {
        for seat in 0..u64::from(script.workers) + 1 {
            if !self.is_free(seat as SeatNo) {
                return false;
            }
        }
        true
    }

    /// Whether the driver has nothing left.
    pub(crate) fn is_finished(&self) -> bool
        ensures { result ≡ is_finished_in self.now }
    {
        self.driver.left == 0
    }

    /// Whether nothing is left to be done: the driver is through, no seat runs a task, and none is inside a job.
    pub fn is_whole(&self, script: &Script) -> bool
        ensures { result ≡ is_whole_in script.now self.now }
    {
        self.is_finished() && self.is_quiet(script)
    }
}
