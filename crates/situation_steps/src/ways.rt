//! What a seat does next.
ghost use Rattle.std.specs.Prelude.{◌≡◌, filter, slice_get};
ghost use Rattle.task_base.specs.Steps.{after, is_act};
ghost use Rattle.task_model.specs.Seats.{steps_of};
ghost use Rattle.hist_model.specs.Laws.Progress.{end_of};
ghost use Rattle.log_count.specs.Ways.{is_taken_up, join_reply_in, take_in, take_of, way_in, way_of_action_in};
ghost use Rattle.log_count.specs.Ways.{way_of_driver, way_of_free_in, way_of_item_in, way_of_step_in, way_of_task_in};
ghost use Rattle.situation_steps.specs.Reached.{HasNumbers};

use crate::declared::{behaviour_of_job, effective_at, items_of};
use crate::parts::{Running, Waiter, Waits};
use crate::state::Situation;
use task_base::{
    Action, JobId, JobReply, Kind, RunnerId, Script, SeatNo, SeqId, Step, TaskId, TaskSource,
    apply, is_act,
};
use task_traits::forbids;

/// An act step of a task, by how many of them stand before it.
fn act_at(script: &Script, task: TaskId, acts: u32) -> Option<Step>
    ensures { result ≡ slice_get (filter is_act (steps_of script.now task)) acts }
{
    match script.tasks.at(task as usize) {
        None => None,
        Some(task) => act_among(task.steps.as_slice(), acts),
    }
}

/// An act step among steps, by how many of them stand before it.
fn act_among(steps: &[Step], acts: u32) -> Option<Step>
    ensures { result ≡ slice_get (filter is_act steps.now) acts }
{
    steps
        .iter()
        .copied()
        .filter(|step| is_act(step))
        .nth(acts as usize)
}

/// The value that the steps of a task leave.
fn left_by(script: &Script, task: TaskId, found: u64) -> u64
    ensures { result ≡ after (steps_of script.now task) found }
{
    match script.tasks.at(task as usize) {
        None => found,
        Some(task) => task
            .steps
            .as_slice()
            .iter()
            .fold(found, |value, step| apply(step, value)),
    }
}

/// The end of a task that runs.
fn end_of(script: &Script, runs: &Running) -> Kind
    ensures { result ≡ end_of script.now runs.now }
{
    let task = runs.task;
    let left = left_by(script, task, runs.found);
    if runs.is_main {
        Kind::MainEnd { task, left }
    } else {
        Kind::End { task, left }
    }
}

impl Situation {
    /// Whether a post to a runner is accepted now.
    fn is_taken_up(&self, script: &Script, runner: RunnerId, delay: u64) -> bool
        ensures { result ≡ is_taken_up script.now self.now runner delay }
    {
        !forbids(self.phase, effective_at(script, runner, delay))
    }

    /// What takes who stands first of a sequence.
    fn take_of(&self, sequence: SeqId, first: &Waiter) -> Option<Kind>
        ensures { result ≡ take_of self.now sequence first.now }
    {
        match first.waits {
            Waits::Task { task, home, .. } => Some(Kind::Take {
                task,
                runner: home,
                found: self.cell(sequence as usize),
            }),
            Waits::OfJob(_) => None,
        }
    }

    /// What takes a source.
    fn take(&self, script: &Script, source: TaskSource) -> Option<Kind>
        ensures { result ≡ take_in script.now self.now source }
    {
        match source {
            TaskSource::Sequence(sequence) => match self.first(script, source) {
                None => None,
                Some(first) => self.take_of(sequence, &first),
            },
            TaskSource::Job(job) => Some(Kind::JobTake {
                job,
                id: 0,
                item: 0,
            }),
        }
    }

    /// The reply to a join, where it has one.
    fn join_reply(&self, script: &Script, job: JobId) -> Option<JobReply>
        ensures { result ≡ join_reply_in script.now self.now job }
    {
        if self.is_refused(job) {
            Some(JobReply::Refused)
        } else if self.is_through(script, job) {
            Some(JobReply::Finished { sum: 0 })
        } else if self.is_cancelled(job) {
            Some(JobReply::Cancelled)
        } else if forbids(self.phase, behaviour_of_job(script, job)) {
            Some(JobReply::Stopped)
        } else {
            None
        }
    }

    /// What the driver does at a join.
    fn join(&self, script: &Script, job: JobId) -> Option<Kind>
        ensures { result ≡ way_of_action_in script.now self.now (Action.Join job) self.now.driver.made }
    {
        if self.may_enter(script, job) {
            Some(Kind::JobTake {
                job,
                id: 0,
                item: 0,
            })
        } else {
            match self.join_reply(script, job) {
                None => None,
                Some(reply) => Some(Kind::Joined { job, reply }),
            }
        }
    }

    /// What the driver does at the action that it is at.
    fn way_of_action(&self, script: &Script, action: &Action) -> Option<Kind>
        ensures { result ≡ way_of_action_in script.now self.now action.now self.now.driver.made }
    {
        let begins = self.driver.made == 0;
        match *action {
            Action::Post {
                task,
                runner,
                delay,
            } => Some(Kind::Post {
                task,
                runner,
                delay,
                ok: self.is_taken_up(script, runner, delay),
            }),
            Action::Tick { .. } => Some(Kind::Tick { now: 0 }),
            Action::Policy { policy } => Some(Kind::Policy { policy }),
            Action::Reprio { runner, priority } => Some(Kind::Reprio { runner, priority }),
            Action::Flush => Some(Kind::Idle),
            Action::StartJob { job } => Some(Kind::JobPost {
                job,
                ok: !forbids(self.phase, behaviour_of_job(script, job)),
            }),
            Action::Join { job } => self.join(script, job),
            Action::Cancel { job } => Some(if begins {
                Kind::JobCancel { job }
            } else {
                Kind::Cancelled { job }
            }),
            Action::Shutdown => Some(if begins { Kind::Shutdown } else { Kind::Done }),
            Action::Main { .. }
            | Action::Rank { .. }
            | Action::Vote { .. }
            | Action::Fence { .. }
            | Action::Unfence { .. }
            | Action::Close { .. }
            | Action::Pump { .. } => None,
        }
    }

    /// What the driver does by the actions that it has left.
    fn way_of_driver(&self, script: &Script, left: &[Action]) -> Option<Kind>
        ensures { result ≡ way_of_driver script.now self.now left.now }
    {
        match left {
            [] => None,
            [action, ..] => self.way_of_action(script, action),
        }
    }

    /// What an act step of a task enters.
    fn way_of_step(&self, script: &Script, task: TaskId, step: &Step) -> Option<Kind>
        ensures { result ≡ way_of_step_in script.now self.now task step.now }
    {
        match *step {
            Step::Post {
                task: posted,
                runner,
                delay,
            } => Some(Kind::Post {
                task: posted,
                runner,
                delay,
                ok: self.is_taken_up(script, runner, delay),
            }),
            Step::Block(scope) => Some(Kind::Enter { task, scope }),
            Step::Unblock => Some(Kind::Leave { task }),
            Step::Add(_) | Step::Mul(_) | Step::Set(_) | Step::Main { .. } => None,
        }
    }

    /// What a seat does that runs a task.
    fn way_of_task(&self, script: &Script, seat: SeatNo, runs: &Running) -> Option<Kind>
        ensures { result ≡ way_of_task_in script.now self.now seat runs.now }
    {
        match act_at(script, runs.task, self.acts(seat)) {
            None => Some(end_of(script, runs)),
            Some(step) => self.way_of_step(script, runs.task, &step),
        }
    }

    /// What a seat does that is inside a job.
    fn way_of_item(&self, script: &Script, seat: SeatNo, job: JobId) -> Kind
        requires { HasNumbers script.now }
        ensures { result ≡ way_of_item_in script.now self.now seat job }
    {
        Kind::JobStep {
            job,
            id: 0,
            item: 0,
            value: 0,
            next: if self.leaves(script, seat, job) {
                None
            } else {
                Some(0)
            },
        }
    }

    /// What a seat does that is free.
    fn way_of_free(&self, script: &Script, seat: SeatNo) -> Option<Kind>
        requires { HasNumbers script.now }
        ensures { result ≡ way_of_free_in script.now self.now seat }
    {
        if seat == 0 {
            self.way_of_driver(script, self.actions_left(script))
        } else {
            match self.best(script, seat) {
                None => None,
                Some(found) => self.take(script, found.source),
            }
        }
    }

    /// The one entry that a seat may make, where it may make one.
    #[tactic(auto, unfolding(log_count::specs::Ways::way_in))]
    pub(crate) fn way(&self, script: &Script, seat: SeatNo) -> Option<Kind>
        requires { HasNumbers script.now }
        ensures { result ≡ way_in script.now self.now seat }
    {
        match self.runs(seat) {
            Some(runs) => self.way_of_task(script, seat, &runs),
            None => match self.job(seat) {
                Some(job) => Some(self.way_of_item(script, seat, job)),
                None => self.way_of_free(script, seat),
            },
        }
    }
}
