ghost use Rattle.std.specs.Prelude.{◌≡◌, ◌<◌, ◌++◌, ◌∷◌, ◌||◌, [], List, length, nat_le, slice_index_or, IfOk, OnOk, None, false};
ghost use Rattle.std.specs.List.{list_any};
ghost use Rattle.task_base.specs.Plan.{Plan};
ghost use Rattle.task_base.specs.declared.limits.TheConstants.{MOST_STEPS, MOST_EVENTS};
ghost use Rattle.script_model.specs.Draft.{is_block, may_block_on, opens_scope};
ghost use Rattle.script_model.specs.Laws.Sound.{IsSound};
ghost use Rattle.task_reply.specs.declared.reply.Reply.{Reply};
ghost use Rattle.task_reply.specs.Elaborated.{reply_posting};
ghost use Rattle.task_reply.specs.Replies.{has_home, is_bad_block, is_declared_reply, line_read, home_takes_block};

use crate::marks::{mark, posted_marks};
use crate::read::read_line;
use crate::reason::{BAD_BLOCK, POSTED_TWICE, TOO_MANY, UNDECLARED};
use crate::reply::{Home, Reply};
use crate::sums::steps_of;
use script_bound::events_bound;
use script_lines::LineFault;
use std::alloc::{AllocError, Global};
use task_base::{MOST_EVENTS, MOST_STEPS, RunnerId, Script, Step, Task, TaskId};

/// The script with the replies of the lines read so far, and tables that answer at once what a line needs to know of it.
#[derive(Drop)]
pub(crate) struct Held {
    pub(crate) alloc: Global,
    pub(crate) script: Script,
    /// Whether the script posts the task, for each task.
    pub(crate) posted: Vec<bool>,
    /// How many steps its tasks and jobs have.
    pub(crate) steps: usize,
    /// How many entries its history has at most.
    pub(crate) events: usize,
}

impl Held {
    ghost use Rattle.task_reply.specs.Tables.{Adds, held_reason, IsAdded, HoldsReplies, ReplyTurns, with_task_step};

    /// The script without a reply.
    pub(crate) fn new(alloc: Global, script: Script) -> Result<Held, AllocError>
        requires { IsSound script }
        ensures { IfOk result (λ held. HoldsReplies script [] held) }
    {
        let posted = posted_marks(alloc, &script)?;
        let steps = steps_of(&script);
        let events = events_bound(&script) as usize;
        Ok(Held {
            alloc,
            script,
            posted,
            steps,
            events,
        })
    }

    /// Reads the next line. After a fault what is held is of no more use.
    pub(crate) fn read_line(&mut self, line: &[u8]) -> Result<(), LineFault>
        ensures { (script : Plan) (replies : List Reply) → HoldsReplies script replies self.old
            → ReplyTurns result script self.new (line_read script replies line.now) }
    {
        match read_line(self.alloc, line)? {
            Some(reply) => self.add(reply),
            None => Ok(()),
        }
    }

    /// Adds a reply to the script, if there is no reason against it.
    fn add(&mut self, reply: Reply) -> Result<(), LineFault>
        ensures { Adds result self.old self.new reply }
    {
        match self.reason_against(&reply) {
            Some(reason) => Err(LineFault::Bad { reason }),
            None => Ok(self.push(reply)?),
        }
    }

    /// Adds a reply to the script.
    fn push(&mut self, reply: Reply) -> Result<(), AllocError>
        requires { held_reason self.old reply ≡ None }
        ensures { OnOk result (IsAdded self.old self.new reply) }
    {
        self.add_step(reply.task, posting_of(&reply))?;
        mark(&mut self.posted, reply.reply);
        self.steps += 1;
        self.events += 1;
        Ok(())
    }

    /// The first reason against a reply, by its number.
    #[tactic(auto, unfolding(crate::specs::Tables::held_reason))]
    fn reason_against(&self, reply: &Reply) -> Option<u8>
        ensures { result ≡ held_reason self.now reply.now }
    {
        if !self.is_declared(reply) {
            Some(UNDECLARED)
        } else if self.is_posted(reply.reply) {
            Some(POSTED_TWICE)
        } else if self.is_bad_block(reply) {
            Some(BAD_BLOCK)
        } else if self.is_full() {
            Some(TOO_MANY)
        } else {
            None
        }
    }

    /// Whether the task and the home of a reply were declared, and the reply before the task.
    fn is_declared(&self, reply: &Reply) -> bool
        ensures { result ≡ is_declared_reply self.now.script reply.now }
    {
        (reply.task as usize) < self.script.tasks.len()
            && reply.reply < reply.task
            && self.has_home(&reply.home)
    }

    /// Whether the runner or the queue was declared.
    fn has_home(&self, home: &Home) -> bool
        ensures { result ≡ has_home self.now.script home.now }
    {
        match *home {
            Home::Runner(runner) => (runner as usize) < self.script.runners.len(),
            Home::Queue(queue) => (queue as usize) < self.script.queues.len(),
        }
    }

    /// Whether the script posts the task.
    fn is_posted(&self, task: TaskId) -> bool
        ensures { result ≡ slice_index_or self.now.posted.items task false }
    {
        match self.posted.get(task as usize) {
            Some(posted) => *posted,
            None => false,
        }
    }

    /// Whether a reply opens a blocking scope, and goes where none may block.
    fn is_bad_block(&self, reply: &Reply) -> bool
        ensures { result ≡ is_bad_block self.now.script reply.now }
    {
        self.opens_scope(reply.reply) && !self.takes_block(&reply.home)
    }

    /// Whether a task opens a blocking scope.
    fn opens_scope(&self, task: TaskId) -> bool
        ensures { result ≡ opens_scope self.now.script.tasks task }
    {
        match self.script.tasks.at(task as usize) {
            Some(task) => opens_scope(task.steps.as_slice()),
            None => false,
        }
    }

    /// Whether tasks that block may go there.
    fn takes_block(&self, home: &Home) -> bool
        ensures { result ≡ home_takes_block self.now.script home.now }
    {
        match *home {
            Home::Runner(runner) => self.may_block_on(runner),
            Home::Queue(_) => false,
        }
    }

    /// Whether tasks of the runner may block.
    fn may_block_on(&self, runner: RunnerId) -> bool
        ensures { result ≡ may_block_on self.now.script.runners runner }
    {
        match self.script.runners.at(runner as usize) {
            Some(declared) => declared.traits.may_block,
            None => false,
        }
    }

    /// Whether one more step, or one more entry, passes a limit.
    fn is_full(&self) -> bool
        ensures { result ≡ (nat_le MOST_STEPS self.now.steps || nat_le MOST_EVENTS self.now.events) }
    {
        MOST_STEPS <= self.steps || MOST_EVENTS <= self.events
    }

    /// Puts a step behind those of a task.
    fn add_step(&mut self, task: TaskId, step: Step) -> Result<(), AllocError>
        requires { task < length self.old.script.tasks }
        ensures script { OnOk result (self.new ≡ record self.old { script = with_task_step self.old.script task step }) }
    {
        match self.script.tasks.at_mut(task as usize) {
            Some(task) => push_step(task, step),
            None => Ok(()),
        }
    }
}

/// Puts a step behind those of a task.
fn push_step(task: &mut Task, step: Step) -> Result<(), AllocError>
    ensures { OnOk result (task.new ≡ task.old ++ step ∷ []) }
{
    task.steps.reserve(1)?;
    task.steps.push_spare(step);
    Ok(())
}

/// Whether steps open a blocking scope.
fn opens_scope(steps: &[Step]) -> bool
    ensures { result ≡ list_any is_block steps.now }
{
    steps.iter().any(|step| matches!(*step, Step::Block(_)))
}

/// The step that posts a reply.
fn posting_of(reply: &Reply) -> Step
    ensures { result ≡ reply_posting reply.now }
{
    let task = reply.reply;
    match reply.home {
        Home::Runner(runner) => Step::Post {
            task,
            runner,
            delay: 0,
        },
        Home::Queue(queue) => Step::Main {
            task,
            queue,
            delay: 0,
        },
    }
}
