ghost use Rattle.std.specs.Prelude.{◌≡◌, ◌≤◌, IfOk, IfSome, IsSome, Some, slice_get};
ghost use Rattle.queue_fence.specs.declared.voters.TheConstants.{MOST_VOTERS};
ghost use Rattle.sequence_manager.specs.State.{closed, fresh_queue, open_in, taken_from, without_delayed};
ghost use Rattle.work_queue.specs.Lanes.{lane_of};

use delayed_manager::Delayed;
use queue_fence::{Fence, Voters};
use std::alloc::{AllocError, Global};
use task_base::{Cell, Lane, TaskId};
use work_queue::WorkQueue;

/// One main queue (Chromium's `sequence_manager/task_queue_impl.h`).
#[derive(Drop)]
pub(crate) struct TaskQueue {
    /// The tasks that may run, as far as fence and voters let them.
    pub tasks: WorkQueue,
    /// The delayed tasks that are not ripe.
    pub delayed: Delayed,
    pub fence: Fence,
    pub voters: Voters,
    /// What its last task left, unless one of its tasks runs.
    pub cell: Option<Cell>,
    /// It takes in no task any more, and has none.
    pub closed: bool,
}

impl TaskQueue {
    /// A queue with so many voters and no task, with room for so many. The error is want of memory.
    pub fn new(alloc: Global, voters: u8, room: u32) -> Result<TaskQueue, AllocError>
        requires { voters ≤ MOST_VOTERS }
        ensures { IfOk result (λ queue. queue ≡ fresh_queue voters room) }
    {
        Ok(TaskQueue {
            tasks: WorkQueue::new(alloc, room)?,
            delayed: Delayed::new(alloc, room)?,
            fence: Fence::new(),
            voters: Voters::new(voters),
            cell: Some(Cell::new()),
            closed: false,
        })
    }

    /// The order of the front of a lane, where it is open: all voters vote for the queue, and the fence lets it pass.
    pub fn open_front(&self, lane: Lane) -> Option<u64>
        ensures { result ≡ open_in lane self.now }
    {
        let first = self.tasks.front(lane)?;
        if self.voters.enabled() && self.fence.passes(first.order) {
            Some(first.order)
        } else {
            None
        }
    }

    /// Takes the front of a lane, and the cell.
    pub fn take_out(&mut self, lane: Lane) -> (TaskId, Cell)
        requires some { IsSome (slice_get (lane_of self.old.tasks lane) 0) }
        requires home { IsSome self.old.cell }
        ensures task { IfSome (slice_get (lane_of self.old.tasks lane) 0) (λ first. result.0 ≡ first.task) }
        ensures cell { self.old.cell ≡ Some result.1 }
        ensures rest { self.new ≡ taken_from lane self.old }
    {
        let first = self.tasks.pop(lane).unwrap();
        let cell = self.cell.take().unwrap();
        (first.task, cell)
    }

    /// Drops all tasks, and takes in no more.
    pub fn close(&mut self)
        ensures { self.new ≡ closed self.old }
    {
        self.tasks.clear();
        self.drop_delayed();
        self.closed = true;
    }

    fn drop_delayed(&mut self)
        ensures { self.new ≡ without_delayed self.old }
    {
        while let Some(first) = self.delayed.peek() {
            self.delayed.ripen(first.ripe);
        }
    }
}
