ghost use Rattle.std.specs.Prelude.{◌≡◌};
ghost use Rattle.script_model.specs.Draft.{empty_draft, script_of, workers_in};
ghost use Rattle.task_script.specs.Added.{added};

use crate::groups::GroupLimits;
use script_lines::{Command, LineFault};
use std::alloc::Global;
use task_base::{Action, Job, MainQueue, Rows, Runner, Script, Task};

/// What the lines read so far say, with tables that answer at once what a line needs to know of them.
#[derive(Drop)]
pub(crate) struct Reader {
    pub(crate) alloc: Global,
    pub(crate) workers: Option<u32>,
    pub(crate) groups: Option<GroupLimits>,
    pub(crate) threshold: Option<u64>,
    pub(crate) runners: Vec<Runner>,
    pub(crate) queues: Vec<MainQueue>,
    pub(crate) tasks: Vec<Task>,
    pub(crate) jobs: Vec<Job>,
    pub(crate) actions: Vec<Action>,
    pub(crate) marks: Marks,
    pub(crate) totals: Totals,
}

/// What is known of each task and job, and of shutdown.
#[derive(Drop)]
pub(crate) struct Marks {
    /// Whether a step or an action posts the task, for each task.
    pub(crate) posted: Vec<bool>,
    /// Whether the task opens a blocking scope, for each task.
    pub(crate) blocks: Vec<bool>,
    /// Whether an action starts the job, for each job.
    pub(crate) started: Vec<bool>,
    /// Whether an action starts shutdown.
    pub(crate) shutdown: bool,
}

/// The sums over all lines that have a limit.
#[derive(Drop)]
pub(crate) struct Totals {
    pub(crate) items: usize,
    pub(crate) steps: usize,
    pub(crate) ticks: usize,
    pub(crate) events: usize,
}

impl Reader {
    ghost use Rattle.task_script.specs.Reader.{draft, Tables, Turns};

    pub(crate) fn new(alloc: Global) -> Reader
        ensures draft { draft result ≡ empty_draft }
        ensures tables { Tables result }
    {
        Reader {
            alloc,
            workers: None,
            groups: None,
            threshold: None,
            runners: Vec::new(alloc),
            queues: Vec::new(alloc),
            tasks: Vec::new(alloc),
            jobs: Vec::new(alloc),
            actions: Vec::new(alloc),
            marks: Marks {
                posted: Vec::new(alloc),
                blocks: Vec::new(alloc),
                started: Vec::new(alloc),
                shutdown: false,
            },
            totals: Totals {
                items: 0,
                steps: 0,
                ticks: 0,
                events: 0,
            },
        }
    }

    /// The script that the lines give.
    pub(crate) fn finish(self) -> Script
        ensures { result ≡ script_of (draft self) }
    {
        let workers = self.workers();
        let groups = self.groups.unwrap_or(GroupLimits {
            foreground: 4,
            foreground_best: 2,
            background: 0,
        });
        Script {
            workers,
            foreground: groups.foreground,
            foreground_best: groups.foreground_best,
            background: groups.background,
            threshold: self.threshold.unwrap_or(1_000_000),
            runners: Rows::from_vec(self.runners),
            queues: Rows::from_vec(self.queues),
            tasks: Rows::from_vec(self.tasks),
            jobs: Rows::from_vec(self.jobs),
            actions: Rows::from_vec(self.actions),
        }
    }

    /// How many worker seats there are.
    pub(crate) fn workers(&self) -> u32
        ensures { result ≡ workers_in (draft self.now) }
    {
        self.workers.unwrap_or(2)
    }

    /// Adds what a line says. After a fault the reader is of no more use: a refused line may leave the tables half done.
    #[tactic(auto, unfolding(crate::specs::Added::added))]
    pub(crate) fn take(&mut self, command: Command) -> Result<(), LineFault>
        requires { Tables self.old }
        ensures { Turns result self.new (added (draft self.old) command) }
    {
        match command {
            Command::Nothing => Ok(()),
            Command::Workers { count } => self.add_workers(count),
            Command::Groups {
                foreground,
                foreground_best,
                background,
            } => self.add_groups(GroupLimits {
                foreground,
                foreground_best,
                background,
            }),
            Command::Threshold { microseconds } => self.add_threshold(microseconds),
            Command::Runner { number, runner } => self.add_runner(number, runner),
            Command::Queue { number, queue } => self.add_queue(number, queue),
            Command::Task { number, task } => self.add_task(number, task),
            Command::Job { number, job } => self.add_job(number, job),
            Command::Act { action } => self.act(action),
        }
    }
}
