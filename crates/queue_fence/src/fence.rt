ghost use Rattle.std.specs.Prelude.{◌≡◌, None, Some};
ghost use Rattle.queue_fence.specs.Fence.{lets_pass};

use std::marker::Model;

/// The fence of a main queue (Chromium's `TaskQueue::InsertFence` of `task_queue.h`, kept in `task_queue_impl.h`):
/// tasks at or behind it don't run until it is removed or replaced. An order counts the posts of all main queues.
#[derive(Debug, Drop)]
pub struct Fence {
    order: Option<u64>,
}

impl Model for Fence {
    ghost use Rattle.std.specs.Prelude.{ℕ, Option};

    ghost Value = { Option ℕ };

    ghost view = { λ fence. fence.order };
}

impl Fence {
    /// No fence, as a queue has it at first.
    pub fn new() -> Fence
        ensures { result ≡ None }
    {
        Fence { order: None }
    }

    /// Puts a fence at an order. It replaces the one that there was, be that before it or behind it.
    pub fn set(&mut self, order: u64)
        ensures { self.new ≡ Some order }
    {
        self.order = Some(order);
    }

    /// Takes the fence away. Where there is none, nothing changes.
    pub fn remove(&mut self)
        ensures { self.new ≡ None }
    {
        self.order = None;
    }

    /// Whether a task of an order may run.
    pub fn passes(&self, order: u64) -> bool
        ensures { result ≡ lets_pass self.now order }
    {
        match self.order {
            Some(fence) => order < fence,
            None => true,
        }
    }
}
