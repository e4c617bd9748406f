ghost use Rattle.std.specs.Prelude.{◌≡◌, ◌+◌, ◌<◌, ◌^◌, length, slice_get, IfOk};
ghost use Rattle.std.specs.Option.{option_map};
ghost use Rattle.task_base.specs.Groups.{Background, group_of, same_group};
ghost use Rattle.task_base.specs.Runners.{sequence_of, seat_of};
ghost use Rattle.task_runners.specs.Table.{table_of};

use std::alloc::{AllocError, Global};
use std::marker::Model;
use task_base::{Rows, Runner, RunnerId, RunnerKind, Script, SeatNo, SeqId, TaskId};
use task_traits::{Priority, Traits};

/// The declared runners of a script (Chromium's `thread_pool.h` and `task_runner.h`), and whether it has a background
/// group. A runner is its place in the script's list.
#[derive(Debug, Drop)]
pub struct RunnerTable {
    runners: Rows<Runner>,
    background: u32,
}

impl Model for RunnerTable {
    ghost use Rattle.task_base.specs.Plan.{Plan};
    ghost use Rattle.task_runners.specs.Table.{table_of};

    ghost Value = { Plan };

    ghost view = { λ t. table_of t.runners.items t.background };
}

impl RunnerTable {
    /// The table of a script's runners, with room of its own. The error is want of memory.
    pub fn new(alloc: Global, script: &Script) -> Result<RunnerTable, AllocError>
        ensures { IfOk result (λ table. table ≡ table_of script.now.runners script.now.background) }
    {
        let runners = script.runners.copy(alloc)?;
        Ok(RunnerTable {
            runners,
            background: script.background,
        })
    }

    /// The sequence that a task belongs to on a runner.
    pub fn seq_of(&self, runner: RunnerId, task: TaskId) -> SeqId
        requires declared { runner < length self.now.runners }
        requires fits { length self.now.runners + task < 2 ^ 32 }
        ensures { result ≡ sequence_of self.now runner task }
    {
        match self.runner(runner).kind {
            RunnerKind::Parallel => self.runners.len() as u32 + task,
            RunnerKind::Sequenced | RunnerKind::Single(_) => runner,
        }
    }

    /// The only seat that takes a runner's tasks, if it is a single-thread runner.
    pub fn seat_of(&self, runner: RunnerId) -> Option<SeatNo>
        requires declared { runner < length self.now.runners }
        ensures { result ≡ seat_of self.now runner }
    {
        match self.runner(runner).kind {
            RunnerKind::Parallel | RunnerKind::Sequenced => None,
            RunnerKind::Single(seat) => Some(seat),
        }
    }

    /// What a runner asks for each of its tasks.
    pub fn traits_of(&self, runner: RunnerId) -> Traits
        requires declared { runner < length self.now.runners }
        ensures { option_map (λ r. r.traits) (slice_get self.now.runners runner) ≡ Some result }
    {
        self.runner(runner).traits
    }

    /// Whether the background group does the work of a priority.
    pub fn background(&self, priority: Priority) -> bool
        ensures { result ≡ same_group (group_of self.now priority) Background }
    {
        priority == Priority::BestEffort && self.background > 0
    }

    fn runner(&self, runner: RunnerId) -> Runner
        requires { runner < length self.now.runners }
        ensures { slice_get self.now.runners runner ≡ Some result }
    {
        self.runners.as_slice()[runner as usize]
    }
}
