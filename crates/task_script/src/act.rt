ghost use Rattle.std.specs.Prelude.{◌≡◌, ◌≤◌, ◌++◌, ◌∷◌, [], length, true, OnOk};
ghost use Rattle.script_model.specs.Bound.{events_of_action};
ghost use Rattle.script_model.specs.Draft.{has_runner, has_queue, has_voter, has_job, is_started, ticks_of};
ghost use Rattle.script_model.specs.Lines.{acted, posted};
ghost use Rattle.script_model.specs.Laws.Postings.{posts_of_step, posts_of_action};
ghost use Rattle.task_script.specs.Added.{action_added, on_runner, on_queue, on_voter, on_job, job_start, shutdown_start};
ghost use Rattle.task_script.specs.Plain.{is_plain};

use crate::reader::Reader;
use crate::reasons::{BAD_BLOCK, JOB_USE, POSTED_TWICE, SHUTDOWN_TWICE, TOO_MANY, UNDECLARED};
use script_lines::{LineFault, refuse};
use task_base::{Action, JobId, MOST_EVENTS, MOST_TICKS, QueueId, RunnerId, Step};

impl Reader {
    ghost use Rattle.task_script.specs.Reader.{draft, Tables, AreTotals, Turns, Sums};

    #[tactic(auto, unfolding(crate::specs::Added::action_added))]
    pub(crate) fn act(&mut self, action: Action) -> Result<(), LineFault>
        requires { Tables self.old }
        ensures { Turns result self.new (action_added (draft self.old) action) }
    {
        match action {
            Action::Post {
                task,
                runner,
                delay,
            } => {
                let step = Step::Post {
                    task,
                    runner,
                    delay,
                };
                self.post(step, action)
            }
            Action::Main { task, queue, delay } => {
                self.post(Step::Main { task, queue, delay }, action)
            }
            Action::Tick { .. } | Action::Policy { .. } | Action::Pump { .. } | Action::Flush => {
                self.act_alone(action)
            }
            Action::Reprio { runner, .. } => self.act_on_runner(runner, action),
            Action::Fence { queue, .. }
            | Action::Unfence { queue }
            | Action::Rank { queue, .. }
            | Action::Close { queue } => self.act_on_queue(queue, action),
            Action::Vote { queue, voter, .. } => self.vote(queue, voter, action),
            Action::StartJob { job } => self.start_job(job),
            Action::Join { job } | Action::Cancel { job } => self.act_on_job(job, action),
            Action::Shutdown => self.shut_down(),
        }
    }

    /// Adds an action that posts what the step posts.
    fn post(&mut self, step: Step, action: Action) -> Result<(), LineFault>
        requires tables { Tables self.old }
        requires posts { length (posts_of_action action) ≡ 1 }
        requires same { posts_of_action action ≡ posts_of_step step }
        ensures { Turns result self.new (posted (draft self.old) step action) }
    {
        refuse(!self.is_declared(&step), UNDECLARED)?;
        refuse(self.posts_again(&[step]), POSTED_TWICE)?;
        refuse(self.is_bad_post(&step), BAD_BLOCK)?;
        self.push_action(action)
    }

    fn act_alone(&mut self, action: Action) -> Result<(), LineFault>
        requires tables { Tables self.old }
        requires plain { is_plain action ≡ true }
        ensures { Turns result self.new (acted (draft self.old) action) }
    {
        self.push_action(action)
    }

    #[tactic(auto, unfolding(crate::specs::Added::on_runner))]
    fn act_on_runner(&mut self, runner: RunnerId, action: Action) -> Result<(), LineFault>
        requires tables { Tables self.old }
        requires plain { is_plain action ≡ true }
        ensures { Turns result self.new (on_runner (draft self.old) runner action) }
    {
        refuse(!self.has_runner(runner), UNDECLARED)?;
        self.act_alone(action)
    }

    fn has_runner(&self, runner: RunnerId) -> bool
        ensures { result ≡ has_runner (draft self.now) runner }
    {
        (runner as usize) < self.runners.len()
    }

    #[tactic(auto, unfolding(crate::specs::Added::on_queue))]
    fn act_on_queue(&mut self, queue: QueueId, action: Action) -> Result<(), LineFault>
        requires tables { Tables self.old }
        requires plain { is_plain action ≡ true }
        ensures { Turns result self.new (on_queue (draft self.old) queue action) }
    {
        refuse(!self.has_queue(queue), UNDECLARED)?;
        self.act_alone(action)
    }

    fn has_queue(&self, queue: QueueId) -> bool
        ensures { result ≡ has_queue (draft self.now) queue }
    {
        (queue as usize) < self.queues.len()
    }

    #[tactic(auto, unfolding(crate::specs::Added::on_voter))]
    fn vote(&mut self, queue: QueueId, voter: u8, action: Action) -> Result<(), LineFault>
        requires tables { Tables self.old }
        requires plain { is_plain action ≡ true }
        ensures { Turns result self.new (on_voter (draft self.old) queue voter action) }
    {
        refuse(!self.has_voter(queue, voter), UNDECLARED)?;
        self.act_alone(action)
    }

    fn has_voter(&self, queue: QueueId, voter: u8) -> bool
        ensures { result ≡ has_voter (draft self.now) queue voter }
    {
        match self.queues.get(queue as usize) {
            Some(declared) => voter < declared.voters,
            None => false,
        }
    }

    #[tactic(auto, unfolding(crate::specs::Added::job_start))]
    fn start_job(&mut self, job: JobId) -> Result<(), LineFault>
        requires { Tables self.old }
        ensures { Turns result self.new (job_start (draft self.old) job) }
    {
        refuse(!self.has_job(job), UNDECLARED)?;
        refuse(self.is_started(job), JOB_USE)?;
        self.push_action(Action::StartJob { job })?;
        self.marks.started[job as usize] = true;
        Ok(())
    }

    #[tactic(auto, unfolding(crate::specs::Added::on_job))]
    fn act_on_job(&mut self, job: JobId, action: Action) -> Result<(), LineFault>
        requires tables { Tables self.old }
        requires plain { is_plain action ≡ true }
        ensures { Turns result self.new (on_job (draft self.old) job action) }
    {
        refuse(!self.has_job(job), UNDECLARED)?;
        refuse(!self.is_started(job), JOB_USE)?;
        self.act_alone(action)
    }

    fn has_job(&self, job: JobId) -> bool
        ensures { result ≡ has_job (draft self.now) job }
    {
        (job as usize) < self.jobs.len()
    }

    fn is_started(&self, job: JobId) -> bool
        requires tables { Tables self.now }
        requires declared { has_job (draft self.now) job ≡ true }
        ensures { result ≡ is_started (draft self.now) job }
    {
        self.marks.started[job as usize]
    }

    #[tactic(auto, unfolding(crate::specs::Added::shutdown_start))]
    fn shut_down(&mut self) -> Result<(), LineFault>
        requires { Tables self.old }
        ensures { Turns result self.new (shutdown_start (draft self.old)) }
    {
        refuse(self.marks.shutdown, SHUTDOWN_TWICE)?;
        self.push_action(Action::Shutdown)?;
        self.marks.shutdown = true;
        Ok(())
    }

    /// Adds an action, if its ticks and entries keep the limits. The marks stay as they are.
    fn push_action(&mut self, action: Action) -> Result<(), LineFault>
        requires { AreTotals self.old.totals (draft self.old) }
        ensures acted { Sums result self.new (acted (draft self.old) action) }
        ensures pushed { OnOk result (draft self.new ≡ record (draft self.old) { actions = (draft self.old).actions ++ action ∷ [] }) }
        ensures marks { self.new.marks ≡ self.old.marks }
    {
        let ticks = ticks_of(&action);
        let events = events_of_action(&action);
        refuse(self.totals.ticks + ticks > MOST_TICKS, TOO_MANY)?;
        refuse(self.totals.events + events > MOST_EVENTS, TOO_MANY)?;
        self.actions.push(action)?;
        self.totals.ticks += ticks;
        self.totals.events += events;
        Ok(())
    }
}

/// How often an action reads the clock.
fn ticks_of(action: &Action) -> usize
    ensures ticks { result ≡ ticks_of action.now }
    ensures fits { result ≤ 4294967295 }
{
    match *action {
        Action::Tick { count } => count as usize,
        _ => 0,
    }
}

/// How many entries of the history an action takes at most.
fn events_of_action(action: &Action) -> usize
    ensures events { result ≡ events_of_action action.now }
    ensures fits { result ≤ 4294967295 }
{
    match *action {
        Action::Tick { count } => count as usize,
        Action::Cancel { .. } | Action::Shutdown => 2,
        _ => 1,
    }
}
