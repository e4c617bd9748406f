ghost use Rattle.std.specs.Prelude.{◌≡◌, ◌≤◌, ◌<◌, ◌+◌, ◌++◌, ◌^◌, map, IfOk, OnOk};
ghost use Rattle.full_trace.specs.Shown.{begin_of_item, begin_of_task, behaviour_of, course_after, declared, event_if, events_at, flow_of, next_of, priorities_after, priority_at, running_after, said, said_of, waiting_after, work_of};
ghost use Rattle.task_model.specs.Capacity.{priority_of_job};
ghost use Rattle.task_model.specs.Refusal.{behaviour_of_job};

use crate::event::{Event, What};
use std::alloc::{AllocError, Global};
use std::marker::Model;
use task_base::{
    Behaviour, Entry, JobId, Kind, Priority, Runner, RunnerId, Script, SeatNo, TaskId,
};

/// What the log has come to at a place. Contracts see it as the list of the priorities and the two numbers.
#[derive(Drop)]
pub(crate) struct Course {
    /// The priority of each runner.
    priorities: Vec<Priority>,
    /// How many tasks of the pool run.
    running: u64,
    /// How many tasks of the pool were accepted and have not been taken.
    waiting: u64,
}

impl Model for Course {
    ghost use Rattle.full_trace.specs.Shown.{Standing};

    ghost Value = { Standing };

    ghost view = { λ c. record { priorities = c.priorities.items; running = c.running; waiting = c.waiting } };
}

impl Course {
    /// Before the first entry each runner has the priority that the script declares.
    pub(crate) fn new(alloc: Global, script: &Script) -> Result<Course, AllocError>
        ensures { IfOk result (λ course. course ≡ declared script.now) }
    {
        Ok(Course {
            priorities: priorities_of(alloc, script.runners.as_slice())?,
            running: 0,
            waiting: 0,
        })
    }

    /// Goes on by an entry.
    #[tactic(auto, unfolding(crate::specs::Shown::course_after))]
    pub(crate) fn enter(&mut self, kind: &Kind)
        requires running { self.old.running < 2 ^ 63 }
        requires waiting { self.old.waiting < 2 ^ 63 }
        ensures after { self.new ≡ course_after self.old kind.now }
        ensures running { self.new.running ≤ self.old.running + 1 }
        ensures waiting { self.new.waiting ≤ self.old.waiting + 1 }
    {
        change(&mut self.priorities, kind);
        self.running = running_after(self.running, kind);
        self.waiting = waiting_after(self.waiting, kind);
    }

    /// What an entry says first, once the course has gone on by it.
    pub(crate) fn said(&self, script: &Script, kind: &Kind) -> What
        ensures { result ≡ said script.now self.now kind.now }
    {
        match *kind {
            Kind::Take {
                task,
                runner,
                found,
            } => self.begin_of_task(script, task, runner, found),
            Kind::JobTake { job, id, item } => begin_of_item(script, job, id, item),
            _ => said_of(kind),
        }
    }

    /// How much work of the pool there is, where the entry changes that.
    pub(crate) fn work(&self, kind: &Kind) -> Option<What>
        ensures { result ≡ work_of self.now kind.now }
    {
        match *kind {
            Kind::Post { ok: true, .. } | Kind::Take { .. } | Kind::End { .. } => {
                Some(What::Work {
                    running: self.running,
                    waiting: self.waiting,
                })
            }
            _ => None,
        }
    }

    fn begin_of_task(&self, script: &Script, task: TaskId, runner: RunnerId, found: u64) -> What
        ensures { result ≡ begin_of_task script.now self.now task runner found }
    {
        What::TaskBegins {
            task,
            runner,
            priority: priority_at(&self.priorities, runner),
            behaviour: behaviour_of(script, runner),
            found,
        }
    }
}

// The priority that is declared for each runner.
fn priorities_of(alloc: Global, runners: &[Runner]) -> Result<Vec<Priority>, AllocError>
    ensures { IfOk result (λ priorities. priorities.items ≡ map (λ r. r.traits.priority) runners.now) }
{
    runners
        .iter()
        .map(|runner| runner.traits.priority)
        .collect(alloc)
}

// A runner's priority is changed where the entry says so.
fn change(priorities: &mut Vec<Priority>, kind: &Kind)
    ensures { priorities.new.items ≡ priorities_after priorities.old.items kind.now }
{
    if let Kind::Reprio { runner, priority } = *kind {
        if (runner as usize) < priorities.len() {
            priorities[runner as usize] = priority;
        }
    }
}

fn priority_at(priorities: &[Priority], runner: RunnerId) -> Priority
    ensures { result ≡ priority_at priorities.now runner }
{
    match priorities.get(runner as usize) {
        Some(priority) => *priority,
        None => Priority::BestEffort,
    }
}

fn behaviour_of(script: &Script, runner: RunnerId) -> Behaviour
    ensures { result ≡ behaviour_of script.now runner }
{
    match script.runners.at(runner as usize) {
        Some(runner) => runner.traits.behaviour,
        None => Behaviour::ContinueOnShutdown,
    }
}

fn running_after(running: u64, kind: &Kind) -> u64
    requires { running < 2 ^ 63 }
    ensures after { result ≡ running_after running kind.now }
    ensures bound { result ≤ running + 1 }
{
    match *kind {
        Kind::Take { .. } => running + 1,
        Kind::End { .. } => running.saturating_sub(1),
        _ => running,
    }
}

fn waiting_after(waiting: u64, kind: &Kind) -> u64
    requires { waiting < 2 ^ 63 }
    ensures after { result ≡ waiting_after waiting kind.now }
    ensures bound { result ≤ waiting + 1 }
{
    match *kind {
        Kind::Post { ok: true, .. } => waiting + 1,
        Kind::Take { .. } => waiting.saturating_sub(1),
        _ => waiting,
    }
}

fn begin_of_item(script: &Script, job: JobId, id: u32, item: u32) -> What
    ensures { result ≡ begin_of_item script.now job id item }
{
    let (priority, behaviour) = match script.jobs.at(job as usize) {
        Some(job) => (job.priority, job.behaviour),
        None => (Priority::BestEffort, Behaviour::ContinueOnShutdown),
    };
    What::ItemBegins {
        job,
        item,
        id,
        priority,
        behaviour,
    }
}

// What an entry says first, where that is in the entry alone.
fn said_of(kind: &Kind) -> What
    ensures { result ≡ said_of kind.now }
{
    match *kind {
        Kind::Post {
            task,
            runner,
            delay,
            ok,
        } => What::Posts {
            task,
            runner,
            delay,
            ok,
        },
        Kind::Main {
            task,
            queue,
            delay,
            ok,
        } => What::MainPosts {
            task,
            queue,
            delay,
            ok,
        },
        Kind::MainTake { task, queue, found } => What::MainBegins { task, queue, found },
        Kind::End { task, left } | Kind::MainEnd { task, left } => What::TaskEnds { task, left },
        Kind::JobStep {
            job,
            item,
            value,
            ..
        } => What::ItemEnds { job, item, value },
        Kind::Enter { scope, .. } => What::ScopeBegins { scope },
        Kind::Leave { .. } => What::ScopeEnds,
        kind => What::Happens { kind },
    }
}

/// The end of a flow that an entry is.
pub(crate) fn flow_of(kind: &Kind) -> Option<What>
    ensures { result ≡ flow_of kind.now }
{
    match *kind {
        Kind::Post { task, ok: true, .. } | Kind::Main { task, ok: true, .. } => {
            Some(What::FlowsFrom { task })
        }
        Kind::Take { task, .. } | Kind::MainTake { task, .. } => Some(What::FlowsTo { task }),
        _ => None,
    }
}

/// The item that a seat goes on with.
pub(crate) fn next_of(script: &Script, kind: &Kind) -> Option<What>
    ensures { result ≡ next_of script.now kind.now }
{
    match *kind {
        Kind::JobStep {
            job,
            id,
            next: Some(item),
            ..
        } => Some(begin_of_item(script, job, id, item)),
        _ => None,
    }
}
