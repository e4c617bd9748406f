//! What a worker may take, by the line.
ghost use Rattle.std.specs.Prelude.{◌≡◌, ◌&&◌, filter, ◌==◌, true, length};
ghost use Rattle.std.specs.Option.{option_map_or};
ghost use Rattle.std.specs.List.{filter_map, list_any, range_with_len};
ghost use Rattle.list_laws.specs.Lists.{holds_of, keep, least};
ghost use Rattle.task_base.specs.Policy.{is_held_back};
ghost use Rattle.task_base.specs.Runners.{sequence_count};
ghost use Rattle.task_model.specs.Sources.{goes_before};
ghost use Rattle.log_count.specs.Sources.{best_in, job_waits_in, leaves_in, makes_way_in, sequence_by, sequence_waits_in, waiting_in};
ghost use Rattle.situation_steps.specs.Reached.{HasNumbers};
ghost use Rattle.situation_steps.specs.Sources.{better_of, is_first, is_let, is_takeable_in, let_job, let_sequence};
ghost use Rattle.situation_steps.specs.Sources.{outranks_in, runs_source, standing_at, stands_as, waits_from};

use crate::candidate::{Candidate, better_of, goes_before, importance};
use crate::declared::{behaviour_of_job, items_of, priority_of_job, seat_of, sequence_of};
use crate::groups::is_same_group;
use crate::parts::{Waiter, Waits};
use crate::state::Situation;
use task_base::{JobId, Phase, Policy, Priority, Script, SeatNo, SeqId, TaskSource};
use task_traits::forbids;

/// How many sequences a script has.
fn sequence_count(script: &Script) -> SeqId
    requires { HasNumbers script.now }
    ensures { result ≡ sequence_count script.now }
{
    (script.runners.len() + script.tasks.len()) as SeqId
}

/// How many jobs a script has.
pub(crate) fn job_count(script: &Script) -> JobId
    requires { HasNumbers script.now }
    ensures { result ≡ length script.now.jobs }
{
    script.jobs.len() as JobId
}

/// Whether a policy holds back work of a priority in a phase.
fn is_held_back(phase: Phase, policy: Policy, priority: Priority) -> bool
    ensures { result ≡ is_held_back phase policy priority }
{
    let held = match policy {
        Policy::All => false,
        Policy::Foreground => priority == Priority::BestEffort,
        Policy::Nothing => true,
    };
    phase == Phase::Running && held
}

/// Whether work outranks work of a priority in its group, so that a worker at a job makes way for it.
fn outranks(script: &Script, priority: Priority, found: &Candidate) -> bool
    ensures { result ≡ outranks_in script.now priority found.now }
{
    found.seat.is_none()
        && is_same_group(script, found.priority, priority)
        && importance(priority) < importance(found.priority)
}

impl Situation {
    /// A job as work that waits: it may be entered.
    fn job_waits(&self, script: &Script, job: JobId) -> Option<Candidate>
        ensures { result ≡ job_waits_in script.now self.now job }
    {
        if self.may_enter(script, job) {
            let source = TaskSource::Job(job);
            Some(Candidate {
                source,
                priority: priority_of_job(script, job),
                inside: self.inside(script, job),
                place: self.place(script, source),
                seat: None,
            })
        } else {
            None
        }
    }

    /// The work, where the policy does not hold it back.
    fn let_in(&self, found: Option<Candidate>) -> Option<Candidate>
        ensures { result ≡ keep (is_let self.now) found }
    {
        match found {
            None => None,
            Some(found) => {
                if is_held_back(self.phase, self.policy, found.priority) {
                    None
                } else {
                    Some(found)
                }
            }
        }
    }

    /// The work, where a seat may take it.
    fn takeable(&self, script: &Script, seat: SeatNo, found: Option<Candidate>) -> Option<Candidate>
        ensures { result ≡ keep (is_takeable_in script.now self.now seat) found }
    {
        match found {
            None => None,
            Some(found) => {
                if is_for(found.seat, seat) && self.has_room(script, found.priority) {
                    Some(found)
                } else {
                    None
                }
            }
        }
    }

    /// A job that waits and is not held back.
    fn let_job(&self, script: &Script, job: JobId) -> Option<Candidate>
        ensures { result ≡ let_job script.now self.now job }
    {
        self.let_in(self.job_waits(script, job))
    }

    /// A task that stands at a place of the line, as work of its sequence.
    fn standing_at(&self, script: &Script, place: usize) -> Option<Candidate>
        requires { HasNumbers script.now }
        ensures { result ≡ standing_at script.now self.now place }
    {
        match self.waiter_at(place) {
            None => None,
            Some(waiter) => self.stands_as(script, place, &waiter),
        }
    }

    /// Who waits at a place of the line, as work, where that is a task.
    fn stands_as(&self, script: &Script, place: usize, waiter: &Waiter) -> Option<Candidate>
        requires { HasNumbers script.now }
        ensures { result ≡ stands_as script.now self.now place waiter.now }
    {
        match waiter.waits {
            Waits::OfJob(_) => None,
            Waits::Task { task, home, .. } => {
                let sequence = sequence_of(script, home, task);
                if sequence < sequence_count(script) as usize {
                    Some(Candidate {
                        source: TaskSource::Sequence(sequence as SeqId),
                        priority: self.priority(script, home),
                        inside: 0,
                        place,
                        seat: seat_of(script, home),
                    })
                } else {
                    None
                }
            }
        }
    }

    /// Whether a seat runs a task of a source.
    fn runs_source(&self, script: &Script, source: TaskSource) -> bool
        ensures { result ≡ runs_source script.now self.now source }
    {
        match source {
            TaskSource::Sequence(sequence) => self.runs_sequence(script, sequence as usize),
            TaskSource::Job(_) => false,
        }
    }

    /// Whether work stands first of its source in the line, and no task of that runs.
    fn is_first(&self, script: &Script, found: &Candidate) -> bool
        ensures { result ≡ is_first script.now self.now found.now }
    {
        self.place(script, found.source) == found.place && !self.runs_source(script, found.source)
    }

    /// Whether a seat may take work that stands in the line.
    fn may_take(&self, script: &Script, seat: SeatNo, found: &Candidate) -> bool
        ensures { result ≡ (is_takeable_in script.now self.now seat found.now && is_let self.now found.now && is_first script.now self.now found.now) }
    {
        is_for(found.seat, seat)
            && !is_held_back(self.phase, self.policy, found.priority)
            && self.has_room(script, found.priority)
            && self.is_first(script, found)
    }

    /// The best so far, or who stands at a place of the line, where the seat may take that and it goes before.
    fn better_at(
        &self,
        script: &Script,
        seat: SeatNo,
        best: Option<Candidate>,
        place: usize,
    ) -> Option<Candidate>
        requires { HasNumbers script.now }
        ensures { result ≡ better_of goes_before best
            (keep (is_takeable_in script.now self.now seat) (keep (is_let self.now) (waits_from script.now self.now place))) }
    {
        match self.standing_at(script, place) {
            None => best,
            Some(found) => {
                if beats(&found, &best) && self.may_take(script, seat, &found) {
                    Some(found)
                } else {
                    best
                }
            }
        }
    }

    /// The best of the sequences that a seat may take, by who stands in the line.
    fn best_sequence(&self, script: &Script, seat: SeatNo) -> Option<Candidate>
        requires { HasNumbers script.now }
        ensures { result ≡ least goes_before (filter (is_takeable_in script.now self.now seat) (filter (is_let self.now)
            (filter_map (sequence_waits_in script.now self.now) (range_with_len 0 (sequence_count script.now))))) }
    {
        let mut best = None;
        for place in 0..self.in_line() {
            best = self.better_at(script, seat, best, place);
        }
        best
    }

    /// The best of the sources that a seat may take.
    pub(crate) fn best(&self, script: &Script, seat: SeatNo) -> Option<Candidate>
        requires { HasNumbers script.now }
        ensures { result ≡ best_in script.now self.now seat }
    {
        let mut best = self.best_sequence(script, seat);
        for job in 0..job_count(script) {
            let found = self.let_job(script, job);
            best = better_of(best, self.takeable(script, seat, found));
        }
        best
    }

    /// Whether who stands at a place of the line outranks work of a priority.
    #[tactic(auto, using(crate::proofs::ByLine::kept_holds))]
    fn outranks_from(&self, script: &Script, priority: Priority, place: usize) -> bool
        requires { HasNumbers script.now }
        ensures { result ≡ holds_of (outranks_in script.now priority) (keep (is_let self.now) (waits_from script.now self.now place)) }
    {
        match self.standing_at(script, place) {
            None => false,
            Some(found) => {
                outranks(script, priority, &found)
                    && !is_held_back(self.phase, self.policy, found.priority)
                    && self.is_first(script, &found)
            }
        }
    }

    /// Whether a job outranks work of a priority.
    fn job_outranks(&self, script: &Script, priority: Priority, job: JobId) -> bool
        ensures { result ≡ holds_of (outranks_in script.now priority) (let_job script.now self.now job) }
    {
        match self.let_job(script, job) {
            None => false,
            Some(found) => outranks(script, priority, &found),
        }
    }

    /// Whether a sequence outranks work of a priority, by who stands in the line.
    fn is_outranked_by_sequence(&self, script: &Script, priority: Priority) -> bool
        requires { HasNumbers script.now }
        ensures { result ≡ list_any (λ q. holds_of (outranks_in script.now priority) (let_sequence script.now self.now q))
            (range_with_len 0 (sequence_count script.now)) }
    {
        for place in 0..self.in_line() {
            if self.outranks_from(script, priority, place) {
                return true;
            }
        }
        false
    }

    /// Whether some job outranks work of a priority.
    fn is_outranked_by_job(&self, script: &Script, priority: Priority) -> bool
        requires { HasNumbers script.now }
        ensures { result ≡ list_any (λ j. holds_of (outranks_in script.now priority) (let_job script.now self.now j))
            (range_with_len 0 (length script.now.jobs)) }
    {
        for job in 0..job_count(script) {
            if self.job_outranks(script, priority, job) {
                return true;
            }
        }
        false
    }

    /// Whether work that waits outranks work of a priority.
    fn is_outranked(&self, script: &Script, priority: Priority) -> bool
        requires { HasNumbers script.now }
        ensures { result ≡ list_any (outranks_in script.now priority) (waiting_in script.now self.now) }
    {
        let by_sequence = self.is_outranked_by_sequence(script, priority);
        by_sequence || self.is_outranked_by_job(script, priority)
    }

    /// Whether a worker at a job of a priority makes way for better work.
    fn makes_way(&self, script: &Script, priority: Priority) -> bool
        requires { HasNumbers script.now }
        ensures { result ≡ makes_way_in script.now self.now priority }
    {
        self.is_full(script, priority) && self.is_outranked(script, priority)
    }

    /// Whether a seat leaves a job after the item that it holds.
    #[tactic(auto, unfolding(log_count::specs::Sources::leaves_in))]
    pub(crate) fn leaves(&self, script: &Script, seat: SeatNo, job: JobId) -> bool
        requires { HasNumbers script.now }
        ensures { result ≡ leaves_in script.now self.now seat job }
    {
        self.claimed(job) >= items_of(script, job)
            || self.is_cancelled(job)
            || forbids(self.phase, behaviour_of_job(script, job))
            || (seat > 0 && self.makes_way(script, priority_of_job(script, job)))
    }
}

/// Whether work goes before the best so far, if there is one.
fn beats(found: &Candidate, best: &Option<Candidate>) -> bool
    ensures { result ≡ option_map_or (λ b. goes_before found.now b) best.now true }
{
    match best {
        None => true,
        Some(best) => goes_before(found, best),
    }
}

/// Whether work that only one seat may take, if there is one, is for a seat.
fn is_for(only: Option<SeatNo>, seat: SeatNo) -> bool
    ensures { result ≡ option_map_or (λ o. o == seat) only true }
{
    match only {
        None => true,
        Some(only) => only == seat,
    }
}
