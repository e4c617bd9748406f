ghost use Rattle.std.specs.Prelude.{◌≡◌, Ok, Err, Some};
ghost use Rattle.std.specs.List.{list_all};
ghost use Rattle.std.specs.Str.Lines.{strip_carriage_return};
ghost use Rattle.script_model.specs.Grammar.{at_line};
ghost use Rattle.nested_loop.specs.NestGrammar.{empty_nest};
ghost use Rattle.nested_loop.specs.NestLines.{nest_line_read, added, queue_added, task_added, action_added, nest_has_no_actions, are_declared, is_declared_step, is_declared_action};

use crate::fault::NestFault;
use crate::limits::{MOST_NEST_ACTIONS, MOST_NEST_STEPS, MOST_NEST_TASKS};
use crate::line::{NestLine, line_said};
use crate::nest::{Nest, NestAction, NestStep, NestTask};
use crate::posts::{action_posts_again, steps_post_again};
use crate::reasons::{BAD_LINE, LATE, OUT_OF_ORDER, POSTED_TWICE, TOO_MANY, UNDECLARED};
use script_lines::{LineFault, refuse, without_return};
use std::alloc::Global;
use task_base::{MOST_QUEUES, QueueId, Rows, TaskId};

/// The nest that the lines read so far give, with what a line needs to know of it at once.
#[derive(Drop)]
pub(crate) struct Reader {
    alloc: Global,
    nest: Nest,
    /// The tasks that are posted, in the order of the lines: at most as many as there are tasks, since none is posted
    /// twice.
    posted: Rows<TaskId>,
    /// How many steps the tasks have, together.
    steps: usize,
}

impl Reader {
    ghost use Rattle.nested_loop.specs.Reader.{Knows, NestTurns, NestTurnsAt};

    pub(crate) fn new(alloc: Global) -> Reader
        ensures nest { result.nest ≡ empty_nest }
        ensures knows { Knows result }
    {
        Reader {
            alloc,
            nest: Nest {
                classes: Rows::new(alloc),
                tasks: Rows::new(alloc),
                actions: Rows::new(alloc),
            },
            posted: Rows::new(alloc),
            steps: 0,
        }
    }

    /// The nest that the lines give.
    pub(crate) fn finish(self) -> Nest
        ensures { result ≡ self.nest }
    {
        self.nest
    }

    /// Reads the next line, whose number this is. After a fault the reader is of no more use.
    pub(crate) fn read_line(&mut self, number: u32, line: &[u8]) -> Result<(), NestFault>
        requires { Knows self.old }
        ensures { NestTurnsAt result self.new (at_line number (nest_line_read self.old.nest (strip_carriage_return line.now))) }
    {
        match self.read_text(without_return(line)) {
            Ok(()) => Ok(()),
            Err(LineFault::Bad { reason }) => Err(NestFault::Bad {
                line: number,
                reason,
            }),
            Err(LineFault::Memory(error)) => Err(NestFault::Memory(error)),
        }
    }

    /// Reads the text of the next line.
    #[tactic(auto, unfolding(crate::specs::NestLines::added))]
    fn read_text(&mut self, line: &[u8]) -> Result<(), LineFault>
        requires { Knows self.old }
        ensures { NestTurns result self.new (nest_line_read self.old.nest line.now) }
    {
        match line_said(self.alloc, line)? {
            Some(said) => self.add(said),
            None => Err(LineFault::Bad { reason: BAD_LINE }),
        }
    }

    /// Adds what a line says.
    #[tactic(auto, unfolding(crate::specs::NestLines::added))]
    fn add(&mut self, line: NestLine) -> Result<(), LineFault>
        requires { Knows self.old }
        ensures { NestTurns result self.new (added self.old.nest (Some line)) }
    {
        match line {
            NestLine::Nothing => Ok(()),
            NestLine::Queue { number, class } => self.add_queue(number, class),
            NestLine::Task { number, task } => self.add_task(number, task),
            NestLine::Act { action } => self.act(action),
        }
    }

    #[tactic(auto, unfolding(crate::specs::NestLines::queue_added))]
    fn add_queue(&mut self, number: QueueId, class: u8) -> Result<(), LineFault>
        requires { Knows self.old }
        ensures { NestTurns result self.new (queue_added self.old.nest number class) }
    {
        refuse(number as usize != self.nest.classes.len(), OUT_OF_ORDER)?;
        refuse(!self.has_no_actions(), LATE)?;
        refuse(self.nest.classes.len() + 1 > MOST_QUEUES, TOO_MANY)?;
        self.nest.classes.reserve(1)?;
        self.nest.classes.push_spare(class);
        Ok(())
    }

    #[tactic(auto, unfolding(crate::specs::NestLines::task_added))]
    fn add_task(&mut self, number: TaskId, task: NestTask) -> Result<(), LineFault>
        requires { Knows self.old }
        ensures { NestTurns result self.new (task_added self.old.nest number task) }
    {
        let steps = steps_of(&task);
        let count = steps.len();
        refuse(number as usize != self.nest.tasks.len(), OUT_OF_ORDER)?;
        refuse(!self.are_all_declared(steps), UNDECLARED)?;
        refuse(steps_post_again(&mut self.posted, steps)?, POSTED_TWICE)?;
        refuse(!self.has_no_actions(), LATE)?;
        refuse(self.nest.tasks.len() + 1 > MOST_NEST_TASKS, TOO_MANY)?;
        refuse(self.steps + count > MOST_NEST_STEPS, TOO_MANY)?;
        self.nest.tasks.reserve(1)?;
        self.nest.tasks.push_spare(task);
        self.steps += count;
        Ok(())
    }

    #[tactic(auto, unfolding(crate::specs::NestLines::action_added))]
    fn act(&mut self, action: NestAction) -> Result<(), LineFault>
        requires { Knows self.old }
        ensures { NestTurns result self.new (action_added self.old.nest action) }
    {
        refuse(!self.is_declared_action(action), UNDECLARED)?;
        refuse(action_posts_again(&mut self.posted, action)?, POSTED_TWICE)?;
        refuse(self.nest.actions.len() + 1 > MOST_NEST_ACTIONS, TOO_MANY)?;
        self.nest.actions.reserve(1)?;
        self.nest.actions.push_spare(action);
        Ok(())
    }

    fn has_no_actions(&self) -> bool
        ensures { result ≡ nest_has_no_actions self.now.nest }
    {
        self.nest.actions.is_empty()
    }

    /// Whether what the steps name was declared.
    fn are_all_declared(&self, steps: &[NestStep]) -> bool
        ensures { result ≡ list_all (is_declared_step self.now.nest) steps.now }
    {
        steps.iter().all(|step| self.is_declared_step(step))
    }

    /// Whether what a step names was declared.
    fn is_declared_step(&self, step: &NestStep) -> bool
        ensures { result ≡ is_declared_step self.now.nest step.now }
    {
        match *step {
            NestStep::Post { task, queue } => self.are_declared(task, queue),
            NestStep::Say(_) | NestStep::Loop(_) => true,
        }
    }

    /// Whether what an action names was declared.
    fn is_declared_action(&self, action: NestAction) -> bool
        ensures { result ≡ is_declared_action self.now.nest action }
    {
        match action {
            NestAction::Post { task, queue } => self.are_declared(task, queue),
            NestAction::Run(_) => true,
        }
    }

    fn are_declared(&self, task: TaskId, queue: QueueId) -> bool
        ensures { result ≡ are_declared self.now.nest task queue }
    {
        (task as usize) < self.nest.tasks.len() && (queue as usize) < self.nest.classes.len()
    }
}

fn steps_of(task: &NestTask) -> &[NestStep]
    ensures { result.now ≡ task.now.steps }
{
    task.steps.as_slice()
}
