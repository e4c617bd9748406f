ghost use Rattle.std.specs.Prelude.{◌≡◌, IfOk};
ghost use Rattle.log_count.specs.Parts.{acts_in, actions_in, behaviour_in, cell_in, claimed_in, is_cancelled_in};
ghost use Rattle.log_count.specs.Parts.{job_in, priority_in, reply_in, runs_in, scope_in, taken_in};

use crate::declared::declared_priority;
use crate::parts::{DriverAt, JobAt, Running, SeatAt, Unripe, Waiter};
use std::alloc::{AllocError, Global};
use std::marker::Model;
use task_base::{Action, Behaviour, JobId, Phase, Policy, Priority, RunnerId, Script, SeatNo};

/// What of a past decides which futures it has, for a script without main queues (this project's own notion).
#[derive(Debug, Drop)]
pub struct Situation {
    /// Where the driver is.
    pub driver: DriverAt,
    /// The moment, in microseconds.
    pub moment: u64,
    /// How far shutdown has come.
    pub phase: Phase,
    /// The policy in force.
    pub policy: Policy,
    /// The priority of each runner.
    pub priorities: Vec<Priority>,
    /// What each seat does, the driver first.
    pub seats: Vec<SeatAt>,
    /// Who may be taken or entered, in the order of arrival.
    pub line: Vec<Waiter>,
    /// The accepted tasks that are not ripe, in the order in which they become ripe.
    pub unripe: Vec<Unripe>,
    /// What is known of each job.
    pub jobs: Vec<JobAt>,
    /// The cells of the sequenced and single-thread runners; 0 for a parallel one.
    pub cells: Vec<u64>,
    /// How many accepted block tasks have not ended.
    pub blocks: u32,
    /// How many skip tasks run.
    pub skips: u32,
}

impl Model for Situation {
    ghost use Rattle.situation.specs.Situation.{Situation};

    ghost Value = { Situation };

    ghost view = { λ s. record {
      driver = s.driver;
      now = s.moment;
      phase = s.phase;
      policy = s.policy;
      priorities = s.priorities.items;
      seats = s.seats.items;
      line = s.line.items;
      unripe = s.unripe.items;
      jobs = s.jobs.items;
      cells = s.cells.items;
      blocks = s.blocks;
      skips = s.skips;
    } };
}

impl Situation {
    /// An equal situation with room of its own. The error is out of memory.
    pub fn copy(&self, alloc: Global) -> Result<Situation, AllocError>
        ensures { IfOk result (λ copied. copied ≡ self.now) }
    {
        let priorities = Vec::from_slice(alloc, self.priorities.as_slice())?;
        let seats = Vec::from_slice(alloc, self.seats.as_slice())?;
        let line = Vec::from_slice(alloc, self.line.as_slice())?;
        let unripe = Vec::from_slice(alloc, self.unripe.as_slice())?;
        let jobs = Vec::from_slice(alloc, self.jobs.as_slice())?;
        let cells = Vec::from_slice(alloc, self.cells.as_slice())?;
        Ok(Situation {
            driver: self.driver,
            moment: self.moment,
            phase: self.phase,
            policy: self.policy,
            priorities,
            seats,
            line,
            unripe,
            jobs,
            cells,
            blocks: self.blocks,
            skips: self.skips,
        })
    }

    /// The actions that the driver has not completed.
    #[tactic(auto, unfolding(log_count::specs::Parts::actions_in))]
    pub fn actions_left<'a>(&self, script: &'a Script) -> &'a [Action]
        ensures { result.now ≡ actions_in script.now self.now }
    {
        let actions = script.actions.as_slice();
        let made = actions.len().saturating_sub(self.driver.left);
        &actions[made..]
    }

    /// The priority of a runner.
    #[tactic(auto, unfolding(log_count::specs::Parts::priority_in))]
    pub fn priority(&self, script: &Script, runner: RunnerId) -> Priority
        ensures { result ≡ priority_in script.now self.now runner }
    {
        match self.priorities.get(runner as usize) {
            None => declared_priority(script, runner),
            Some(priority) => *priority,
        }
    }

    /// The task that a seat runs.
    #[tactic(auto, unfolding(log_count::specs::Parts::runs_in))]
    pub fn runs(&self, seat: SeatNo) -> Option<Running>
        ensures { result ≡ runs_in self.now seat }
    {
        match self.seats.get(seat as usize) {
            None => None,
            Some(found) => found.runs,
        }
    }

    /// How many act steps of the task that a seat runs are entered.
    #[tactic(auto, unfolding(log_count::specs::Parts::acts_in))]
    pub fn acts(&self, seat: SeatNo) -> u32
        ensures { result ≡ acts_in self.now seat }
    {
        match self.seats.get(seat as usize) {
            None => 0,
            Some(found) => found.acts,
        }
    }

    /// The priority that the task which a seat runs was taken with.
    #[tactic(auto, unfolding(log_count::specs::Parts::taken_in))]
    pub fn taken(&self, seat: SeatNo) -> Option<Priority>
        ensures { result ≡ taken_in self.now seat }
    {
        match self.seats.get(seat as usize) {
            None => None,
            Some(found) => found.taken,
        }
    }

    /// From which moment the open scope of a seat's task counts.
    #[tactic(auto, unfolding(log_count::specs::Parts::scope_in))]
    pub fn scope(&self, seat: SeatNo) -> Option<u64>
        ensures { result ≡ scope_in self.now seat }
    {
        match self.seats.get(seat as usize) {
            None => None,
            Some(found) => found.scope,
        }
    }

    /// The behaviour in effect of the task that a seat runs.
    #[tactic(auto, unfolding(log_count::specs::Parts::behaviour_in))]
    pub fn behaviour(&self, seat: SeatNo) -> Option<Behaviour>
        ensures { result ≡ behaviour_in self.now seat }
    {
        match self.seats.get(seat as usize) {
            None => None,
            Some(found) => found.behaviour,
        }
    }

    /// The job that a seat is inside.
    #[tactic(auto, unfolding(log_count::specs::Parts::job_in))]
    pub fn job(&self, seat: SeatNo) -> Option<JobId>
        ensures { result ≡ job_in self.now seat }
    {
        match self.seats.get(seat as usize) {
            None => None,
            Some(found) => found.job,
        }
    }

    /// The reply to a job's post, if it was posted.
    #[tactic(auto, unfolding(log_count::specs::Parts::reply_in))]
    pub fn reply(&self, job: JobId) -> Option<bool>
        ensures { result ≡ reply_in self.now job }
    {
        match self.jobs.get(job as usize) {
            None => None,
            Some(found) => found.reply,
        }
    }

    /// Whether a job is cancelled.
    #[tactic(auto, unfolding(log_count::specs::Parts::is_cancelled_in))]
    pub fn is_cancelled(&self, job: JobId) -> bool
        ensures { result ≡ is_cancelled_in self.now job }
    {
        match self.jobs.get(job as usize) {
            None => false,
            Some(found) => found.cancelled,
        }
    }

    /// How many items of a job are claimed.
    #[tactic(auto, unfolding(log_count::specs::Parts::claimed_in))]
    pub fn claimed(&self, job: JobId) -> u32
        ensures { result ≡ claimed_in self.now job }
    {
        match self.jobs.get(job as usize) {
            None => 0,
            Some(found) => found.claims,
        }
    }

    /// The cell of a sequenced or single-thread runner; a task of a parallel runner finds 0. A sequence number is taken too: one
    /// beyond the runners is of a parallel runner's task.
    #[tactic(auto, unfolding(log_count::specs::Parts::cell_in))]
    pub fn cell(&self, runner: usize) -> u64
        ensures { result ≡ cell_in self.now runner }
    {
        match self.cells.get(runner) {
            None => 0,
            Some(value) => *value,
        }
    }
}
