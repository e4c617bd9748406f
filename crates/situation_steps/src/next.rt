//! What a seat may make now.
ghost use Rattle.std.specs.Prelude.{◌≡◌, ◌<◌, ◌≤◌, ◌^◌, ◌&&◌, ℕ, length, is_none};
ghost use Rattle.std.specs.List.{list_all, range_with_len};
ghost use Rattle.list_laws.specs.Lists.{count, holds_of};
ghost use Rattle.task_model.specs.Blockers.{is_block, is_skip};
ghost use Rattle.task_model.specs.Phase.{is_started};
ghost use Rattle.task_model.specs.Refusal.{behaviour_of_job};
ghost use Rattle.task_model.specs.Seats.{all_seats, worker_seats};
ghost use Rattle.situation.specs.Counts.{at_moment};
ghost use Rattle.situation.specs.Situation.{Situation as AnySituation};
ghost use Rattle.log_count.specs.Parts.{job_in};
ghost use Rattle.log_count.specs.Sources.{best_in};
ghost use Rattle.log_count.specs.Ways.{blockers_in, if_due, is_due_in, is_open_job_in, next_in, way_in};
ghost use Rattle.situation_steps.specs.Reached.{HasNumbers, IsReached};

use crate::declared::behaviour_of_job;
use crate::groups::share;
use crate::sources::job_count;
use crate::state::Situation;
use task_base::{Behaviour, JobId, Kind, LAST_MOMENT, Phase, Script, SeatNo};

/// The kind, a tick at this moment.
fn at_moment(moment: u64, kind: Kind) -> Kind
    ensures { result ≡ at_moment moment kind }
{
    match kind {
        Kind::Tick { .. } => Kind::Tick { now: moment },
        _ => kind,
    }
}

/// Whether a behaviour is skip.
fn is_skip(behaviour: Behaviour) -> bool
    ensures { result ≡ is_skip behaviour }
{
    match behaviour {
        Behaviour::SkipOnShutdown => true,
        Behaviour::ContinueOnShutdown | Behaviour::BlockShutdown => false,
    }
}

/// Whether a behaviour is block.
fn is_block(behaviour: Behaviour) -> bool
    ensures { result ≡ is_block behaviour }
{
    match behaviour {
        Behaviour::BlockShutdown => true,
        Behaviour::ContinueOnShutdown | Behaviour::SkipOnShutdown => false,
    }
}

impl Situation {
    /// Whether a job is an accepted block job that is not over.
    fn is_open_job(&self, script: &Script, job: JobId) -> bool
        ensures { result ≡ is_open_job_in script.now self.now job }
    {
        is_block(behaviour_of_job(script, job))
            && self.is_accepted(job)
            && !(self.is_empty(script, job)
                && (self.is_through(script, job) || self.is_cancelled(job)))
    }

    /// How many accepted block jobs are not over.
    fn open_jobs(&self, script: &Script) -> u64
        requires { HasNumbers script.now }
        ensures open { result ≡ count (is_open_job_in script.now self.now) (range_with_len 0 (length script.now.jobs)) }
        ensures few { result < 2 ^ 32 }
    {
        let mut count = 0;
        for job in 0..job_count(script) {
            count += share(self.is_open_job(script, job));
        }
        count
    }

    /// Whether a seat is inside a skip job.
    fn is_in_skip_job(&self, script: &Script, seat: SeatNo) -> bool
        ensures { result ≡ holds_of (λ j. is_skip (behaviour_of_job script.now j)) (job_in self.now seat) }
    {
        match self.job(seat) {
            None => false,
            Some(job) => is_skip(behaviour_of_job(script, job)),
        }
    }

    /// How many seats are inside skip jobs.
    fn seats_in_skip_jobs(&self, script: &Script) -> u64
        ensures seats { result ≡ count (λ seat. holds_of (λ j. is_skip (behaviour_of_job script.now j)) (job_in self.now seat)) (all_seats script.now) }
        ensures few { result ≤ 2 ^ 32 }
    {
        let mut count = 0;
        for seat in 0..u64::from(script.workers) + 1 {
            count += share(self.is_in_skip_job(script, seat as SeatNo));
        }
        count
    }

    /// What shutdown waits for.
    #[tactic(auto, unfolding(log_count::specs::Ways::blockers_in))]
    fn blockers(&self, script: &Script) -> u64
        requires { HasNumbers script.now }
        ensures { result ≡ blockers_in script.now self.now }
    {
        let blocks = self.blocks;
        let skips = self.skips;
        let block = u64::from(blocks) + self.open_jobs(script);
        let skip = u64::from(skips) + self.seats_in_skip_jobs(script);
        block + skip
    }

    /// Whether a seat may take nothing.
    fn takes_nothing(&self, script: &Script, seat: SeatNo) -> bool
        requires { HasNumbers script.now }
        ensures { result ≡ is_none (best_in script.now self.now seat) }
    {
        self.best(script, seat).is_none()
    }

    /// Whether no worker may take anything.
    fn is_idle(&self, script: &Script) -> bool
        requires { HasNumbers script.now }
        ensures { result ≡ list_all (λ worker. is_none (best_in script.now self.now worker)) (worker_seats script.now) }
    {
        for seat in 0..script.workers {
            if !self.takes_nothing(script, seat + 1) {
                return false;
            }
        }
        true
    }

    /// Whether what a kind waits for has come.
    fn is_due(&self, script: &Script, kind: &Kind) -> bool
        requires { HasNumbers script.now }
        ensures { result ≡ is_due_in script.now self.now kind.now }
    {
        match *kind {
            Kind::Tick { now } => self.moment <= now && now <= LAST_MOMENT,
            Kind::Take { .. } | Kind::JobTake { .. } => !self.is_finished(),
            Kind::Cancelled { job } => self.is_cancelled(job) && self.is_empty(script, job),
            Kind::Joined { job, .. } => self.is_empty(script, job),
            Kind::Idle => self.is_quiet(script) && self.is_idle(script),
            Kind::Done => self.phase == Phase::Started && self.blockers(script) == 0,
            _ => true,
        }
    }

    /// The kind, where it is due.
    fn if_due(&self, script: &Script, kind: Kind) -> Option<Kind>
        requires { HasNumbers script.now }
        ensures { result ≡ if_due script.now self.now kind }
    {
        if self.is_due(script, &kind) {
            Some(kind)
        } else {
            None
        }
    }

    /// What a seat may make at a moment, by what is due.
    #[tactic(auto, unfolding(log_count::specs::Ways::next_in))]
    fn due_way(&self, script: &Script, moment: u64, seat: SeatNo) -> Option<Kind>
        requires { HasNumbers script.now }
        ensures { (tick : AnySituation → ℕ) → tick self.now ≡ moment → result ≡ next_in script.now tick self.now seat }
    {
        match self.way(script, seat) {
            None => None,
            Some(way) => self.if_due(script, at_moment(moment, way)),
        }
    }

    /// The entry that a seat may make next, if it may make one, without which item of a job it is of: a job entry has 0 in place
    /// of numbers inside the job and of values. A tick reads this moment, in microseconds.
    pub fn next(&self, script: &Script, moment: u64, seat: SeatNo) -> Option<Kind>
        requires { IsReached script.now self.now }
        ensures { (tick : AnySituation → ℕ) → tick self.now ≡ moment → result ≡ next_in script.now tick self.now seat }
    {
        self.due_way(script, moment, seat)
    }
}
