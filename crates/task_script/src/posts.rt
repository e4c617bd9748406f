ghost use Rattle.std.specs.Prelude.{◌≡◌, ◌++◌, true, false, flat_map, map};
ghost use Rattle.std.specs.List.{list_all, list_any};
ghost use Rattle.script_model.specs.Draft.{is_declared, posted_in, is_any_posted, is_bad_post, is_block, has_block, takes_block};
ghost use Rattle.script_model.specs.Laws.Postings.{posts_of_step};

use crate::reader::Reader;
use crate::steps::is_any_posted;
use task_base::{RunnerId, Step, TaskId};

impl Reader {
    ghost use Rattle.task_script.specs.Reader.{draft, Tables, AreFlags};

    /// Whether what the steps name was declared.
    pub(crate) fn are_declared(&self, steps: &[Step]) -> bool
        ensures { result ≡ list_all (is_declared (draft self.now)) steps.now }
    {
        steps.iter().all(|step| self.is_declared(step))
    }

    /// Whether what a step names was declared.
    pub(crate) fn is_declared(&self, step: &Step) -> bool
        ensures { result ≡ is_declared (draft self.now) step.now }
    {
        match *step {
            Step::Post { task, runner, .. } => {
                (task as usize) < self.tasks.len() && (runner as usize) < self.runners.len()
            }
            Step::Main { task, queue, .. } => {
                (task as usize) < self.tasks.len() && (queue as usize) < self.queues.len()
            }
            Step::Add(_) | Step::Mul(_) | Step::Set(_) | Step::Block(_) | Step::Unblock => true,
        }
    }

    /// Whether a task that steps post is posted earlier, or by a step before. If not, their tasks have their marks.
    pub(crate) fn posts_again(&mut self, steps: &[Step]) -> bool
        requires tables { Tables self.old }
        requires declared { list_all (is_declared (draft self.old)) steps.now ≡ true }
        ensures found { result ≡ is_any_posted (posted_in (draft self.old)) (flat_map posts_of_step steps.now) }
        ensures marks { result ≡ false → AreFlags self.new.marks (draft self.old) (posted_in (draft self.old) ++ flat_map posts_of_step steps.now) }
        ensures others { self.new ≡ record self.old { marks = self.new.marks } }
        ensures blocks { self.new.marks.blocks ≡ self.old.marks.blocks }
    {
        is_any_posted(&mut self.marks.posted, steps)
    }

    /// Whether a step posts a task that opens a blocking scope where it must not block.
    pub(crate) fn has_bad_post(&self, steps: &[Step]) -> bool
        requires { self.now.marks.blocks.items ≡ map (list_any is_block) self.now.tasks.items }
        ensures { result ≡ list_any (is_bad_post (draft self.now)) steps.now }
    {
        steps.iter().any(|step| self.is_bad_post(step))
    }

    pub(crate) fn is_bad_post(&self, step: &Step) -> bool
        requires { self.now.marks.blocks.items ≡ map (list_any is_block) self.now.tasks.items }
        ensures { result ≡ is_bad_post (draft self.now) step.now }
    {
        match *step {
            Step::Post { task, runner, .. } => self.has_block(task) && !self.takes_block(runner),
            Step::Main { task, .. } => self.has_block(task),
            Step::Add(_) | Step::Mul(_) | Step::Set(_) | Step::Block(_) | Step::Unblock => false,
        }
    }

    /// Whether the task was declared with a blocking scope.
    fn has_block(&self, task: TaskId) -> bool
        requires { self.now.marks.blocks.items ≡ map (list_any is_block) self.now.tasks.items }
        ensures { result ≡ has_block (draft self.now) task }
    {
        match self.marks.blocks.get(task as usize) {
            Some(blocks) => *blocks,
            None => false,
        }
    }

    /// Whether the runner was declared as one whose tasks may block.
    fn takes_block(&self, runner: RunnerId) -> bool
        ensures { result ≡ takes_block (draft self.now) runner }
    {
        match self.runners.get(runner as usize) {
            Some(declared) => declared.traits.may_block,
            None => false,
        }
    }
}
