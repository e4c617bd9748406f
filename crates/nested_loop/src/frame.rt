use std::alloc::{AllocError, Global};
use std::marker::Model;
use task_base::{Rows, TaskId};

/// A loop or a task of a nest that is open: it began, and has not come to its end.
#[derive(Clone, Copy, Debug, PartialEq, Eq)]
pub(crate) enum Frame {
    /// A loop: how many tasks of its own it is told to run, and how many of those have ended.
    Loop { bound: u32, ended: u32 },
    /// A task, and how many of its steps were begun.
    Task { task: TaskId, begun: usize },
}

/// The loops and tasks that are open, with room that is taken ahead of time. Contracts see them with the innermost one
/// first, which is kept at the end.
#[derive(Drop)]
pub(crate) struct Frames {
    frames: Rows<Frame>,
}

impl Model for Frames {
    ghost use Rattle.std.specs.Prelude.{reverse};
    ghost use Rattle.task_base.specs.Rows.{Listed};
    ghost use Rattle.nested_loop.specs.declared.frame.Frame.{Frame};

    ghost Value = { Listed Frame };

    ghost view = { λ f. record { items = reverse f.frames.items; spare = f.frames.spare } };
}

impl Frames {
    ghost use Rattle.std.specs.Prelude.{◌≡◌, ◌≢◌, ◌+◌, ◌<◌, ◌≤◌, ◌∷◌, [], IfOk, slice_get};
    ghost use Rattle.std.specs.Prelude.{◌^◌};
    ghost use Rattle.std.specs.List.{AllByRecursion};
    ghost use Rattle.nested_loop.specs.Nest.{left, task_ended};
    ghost use Rattle.nested_loop.specs.Ended.{HasEnded};

    /// Nothing is open, with room for so many. The error is want of memory.
    pub fn new(alloc: Global, room: usize) -> Result<Frames, AllocError>
        ensures items { IfOk result (λ frames. frames.items ≡ []) }
        ensures room { IfOk result (λ frames. room ≤ frames.spare) }
    {
        let mut frames = Rows::new(alloc);
        frames.reserve(room)?;
        Ok(Frames { frames })
    }

    /// The innermost one.
    pub fn innermost(&self) -> Option<Frame>
        ensures { result ≡ slice_get self.now.items 0 }
    {
        self.frames.as_slice().last().copied()
    }

    /// Opens one inside of all others.
    pub fn enter(&mut self, frame: Frame)
        requires { 0 < self.old.spare }
        ensures items { self.new.items ≡ frame ∷ self.old.items }
        ensures spare { self.new.spare + 1 ≡ self.old.spare }
    {
        self.frames.push_spare(frame);
    }

    /// Closes the innermost one, if there is one.
    pub fn leave(&mut self)
        ensures items { self.new.items ≡ left self.old.items }
        ensures spare { self.old.spare ≤ self.new.spare }
    {
        let _ = self.frames.pop();
    }

    /// Puts another frame in place of the innermost one.
    pub fn replace(&mut self, frame: Frame)
        requires { self.old.items ≢ [] }
        ensures items { self.new.items ≡ frame ∷ left self.old.items }
        ensures spare { self.old.spare ≤ self.new.spare }
    {
        let _ = self.frames.pop();
        self.frames.push_spare(frame);
    }

    /// The innermost one is a task that has ended: the loop that is then the innermost has seen one more end.
    pub fn end_task(&mut self)
        requires { AllByRecursion (HasEnded (2 ^ 31)) self.old.items }
        ensures items { self.new.items ≡ task_ended (left self.old.items) }
        ensures spare { self.old.spare ≤ self.new.spare }
    {
        self.leave();
        if let Some(Frame::Loop { bound, ended }) = self.innermost() {
            self.replace(Frame::Loop {
                bound,
                ended: ended + 1,
            });
        }
    }
}
