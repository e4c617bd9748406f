ghost use Rattle.std.specs.Prelude.{◌≡◌, ℕ, ◌<◌, ◌++◌, ◌↔◌, [], length, slice_get, All, IfOk, IfNone, IsNone};
ghost use Rattle.std.specs.VecDeque.{deque_capacity};
ghost use Rattle.work_queue.specs.Lanes.{IsBelow, all_held, comes_before, emptied, lane_of, popped, pushed};
ghost use Rattle.list_laws.specs.Sorts.{Rises};

use crate::queued::Queued;
use std::alloc::{AllocError, Global};
use std::collections::VecDeque;
use std::marker::Model;
use std::mem;
use task_base::{Lane, TaskId};

/// The tasks of a main queue that may run (the two work queues of Chromium's `sequence_manager/task_queue_impl.h`, as
/// `work_queue.h` has them, and its queue of immediate tasks that come in).
///
/// An immediate task goes to the incoming queue, which changes places with the immediate work queue where that one is
/// empty after a push or a pop (the moment is this project's own rule). So the first of each lane lies at the front of
/// a work queue, and no call moves the others. All room is taken at the start: no later call takes memory.
#[derive(Drop)]
pub struct WorkQueue {
    incoming: VecDeque<Queued>,
    immediate: VecDeque<Queued>,
    delayed: VecDeque<Queued>,
    room: u32,
}

impl Model for WorkQueue {
    ghost use Rattle.std.specs.Prelude.{◌++◌};
    ghost use Rattle.std.specs.VecDeque.{deque_capacity};
    ghost use Rattle.work_queue.specs.Lanes.{Lanes};
    ghost use Rattle.work_queue.specs.Queues.{HasRoom, IsSound};

    ghost Value = { Lanes };

    ghost view = { λ q. record { immediate = q.immediate.items ++ q.incoming.items; delayed = q.delayed.items; room = q.room } };

    ghost invariant = { λ q. IsSound q.incoming.items q.immediate.items q.delayed.items
        × HasRoom q.room (deque_capacity q.incoming) (deque_capacity q.immediate) (deque_capacity q.delayed) };
}

impl WorkQueue {
    /// No task, with room for so many in both lanes together. The error is want of memory.
    pub fn new(alloc: Global, room: u32) -> Result<WorkQueue, AllocError>
        ensures { IfOk result (λ queue. queue ≡ record { immediate = []; delayed = []; room = room }) }
    {
        let incoming = VecDeque::with_capacity(alloc, room as usize)?;
        let immediate = VecDeque::with_capacity(alloc, room as usize)?;
        let delayed = VecDeque::with_capacity(alloc, room as usize)?;
        Ok(WorkQueue {
            incoming,
            immediate,
            delayed,
            room,
        })
    }

    /// Puts a task at the end of a lane. Its order is above that of every task that is held.
    pub fn push(&mut self, lane: Lane, task: TaskId, order: u64)
        requires room { length (all_held self.old) < self.old.room }
        requires last { All (IsBelow order) (all_held self.old) }
        ensures { self.new ≡ pushed self.old lane (record { task = task; order = order }) }
    {
        let queued = Queued { task, order };
        match lane {
            Lane::Immediate => self.push_immediate(queued),
            Lane::Delayed => self.delayed.push_back_reserved(queued),
        }
    }

    /// The first task of a lane.
    pub fn front(&self, lane: Lane) -> Option<Queued>
        ensures first { result ≡ slice_get (lane_of self.now lane) 0 }
        ensures none { IsNone result ↔ (lane_of self.now lane ≡ []) }
        ensures in_order { Rises comes_before (lane_of self.now lane) }
    {
        match lane {
            Lane::Immediate => self.immediate.front().copied(),
            Lane::Delayed => self.delayed.front().copied(),
        }
    }

    /// Removes the first task of a lane and gives it.
    pub fn pop(&mut self, lane: Lane) -> Option<Queued>
        ensures first { result ≡ slice_get (lane_of self.old lane) 0 }
        ensures none { IsNone result ↔ (lane_of self.old lane ≡ []) }
        ensures removed { self.new ≡ popped self.old lane }
        ensures unchanged { IfNone result (self.new ≡ self.old) }
    {
        match lane {
            Lane::Immediate => self.pop_immediate(),
            Lane::Delayed => self.delayed.pop_front(),
        }
    }

    /// Removes all tasks. The room stays.
    pub fn clear(&mut self)
        ensures { self.new ≡ emptied self.old }
    {
        self.incoming.clear();
        self.immediate.clear();
        self.delayed.clear();
    }

    // Puts a task at the end of the immediate lane.
    fn push_immediate(&mut self, queued: Queued)
        requires room { length (all_held self.old) < self.old.room }
        requires last { All (IsBelow queued.order) (all_held self.old) }
        ensures { self.new ≡ pushed self.old Lane.Immediate queued }
    {
        self.incoming.push_back_reserved(queued);
        reload_if_empty(&mut self.immediate, &mut self.incoming);
    }

    // Removes the first task of the immediate lane and gives it.
    fn pop_immediate(&mut self) -> Option<Queued>
        ensures first { result ≡ slice_get self.old.immediate 0 }
        ensures removed { self.new ≡ popped self.old Lane.Immediate }
    {
        let first = self.immediate.pop_front();
        reload_if_empty(&mut self.immediate, &mut self.incoming);
        first
    }
}

// Lets the incoming queue and the work queue change places where the work queue is empty (Chromium's
// `TaskQueueImpl::ReloadEmptyImmediateWorkQueue`).
fn reload_if_empty(immediate: &mut VecDeque<Queued>, incoming: &mut VecDeque<Queued>)
    ensures items { immediate.new.items ++ incoming.new.items ≡ immediate.old.items ++ incoming.old.items }
    ensures reloaded { immediate.new.items ≡ [] → incoming.new.items ≡ [] }
    ensures room { (room : ℕ) → deque_capacity immediate.old ≡ room → deque_capacity incoming.old ≡ room
        → (deque_capacity immediate.new ≡ room) × (deque_capacity incoming.new ≡ room) }
{
    if immediate.is_empty() {
        mem::swap(immediate, incoming);
    }
}
