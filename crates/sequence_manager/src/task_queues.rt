ghost use Rattle.std.specs.Prelude.{◌≡◌, ◌<◌, ◌^◌, length, slice_get, Some, IfOk};
ghost use Rattle.std.specs.List.{AllByRecursion};
ghost use Rattle.sequence_manager.specs.Pasts.{IsQueueWithin};
ghost use Rattle.sequence_manager.specs.State.{fresh_queues};
ghost use Rattle.sequence_manager.specs.Ripening.{first_ripe, sooner};

use crate::task_queue::TaskQueue;
use delayed_manager::Ripening;
use std::alloc::{AllocError, Global};
use std::marker::Model;
use task_base::{QueueId, Script};

/// The main queues of a script, in the order of their numbers.
#[derive(Drop)]
pub(crate) struct TaskQueues {
    queues: Vec<TaskQueue>,
}

impl Model for TaskQueues {
    ghost use Rattle.std.specs.Prelude.{List};
    ghost use Rattle.sequence_manager.specs.declared.task_queue.TaskQueue.{TaskQueue};

    ghost Value = { List TaskQueue };

    ghost view = { λ q. q.queues.items };
}

impl TaskQueues {
    ghost use Rattle.std.specs.Borrow.{sem};
    ghost use Rattle.sequence_manager.specs.Lending.{LendsQueue};

    /// The queues that a script declares, each without tasks, with room for so many. The error is want of memory.
    pub fn new(alloc: Global, script: &Script, rooms: &[u32]) -> Result<TaskQueues, AllocError>
        requires each { length rooms.now ≡ length script.now.queues }
        requires within { AllByRecursion IsQueueWithin script.now.queues }
        ensures { IfOk result (λ queues. queues ≡ fresh_queues rooms.now script.now.queues) }
    {
        let mut queues = Vec::with_capacity(alloc, script.queues.len())?;
        for place in 0..script.queues.len() {
            if let Some(queue) = script.queues.at(place) {
                queues.push(TaskQueue::new(alloc, queue.voters, rooms[place])?)?;
            }
        }
        Ok(TaskQueues { queues })
    }

    /// One queue.
    pub fn at(&self, queue: QueueId) -> &TaskQueue
        requires { queue < length self.now }
        ensures { slice_get self.now queue ≡ Some result.now }
    {
        &self.queues[queue as usize]
    }

    /// One queue, to be changed where it lies.
    pub fn at_mut(&mut self, queue: QueueId) -> &mut TaskQueue
        requires { queue < length self.old }
        ensures* writes_back { sem 𝓛 (LendsQueue self.entry queue result) }
        ensures queue { slice_get self.old queue ≡ Some result.now }
    {
        &mut self.queues[queue as usize]
    }

    /// The queue of the delayed task that ripens before all others, if that one is ripe by now.
    pub fn first_ripe(&self, now: u64) -> Option<QueueId>
        requires { length self.now < 2 ^ 32 }
        ensures { result ≡ first_ripe now self.now }
    {
        let mut first: Option<(Ripening, QueueId)> = None;
        for place in 0..self.queues.len() {
            first = sooner(first, self.queues[place].delayed.peek(), place as QueueId);
        }
        match first {
            Some((ripening, queue)) if ripening.ripe <= now => Some(queue),
            _ => None,
        }
    }
}

// The delayed task that ripens first of one that is known and the first one of a queue, with its queue.
fn sooner(
    first: Option<(Ripening, QueueId)>,
    other: Option<Ripening>,
    queue: QueueId,
) -> Option<(Ripening, QueueId)>
    ensures { result ≡ sooner first other queue }
{
    match (first, other) {
        (first, None) => first,
        (None, Some(other)) => Some((other, queue)),
        (Some(first), Some(other)) if (other.ripe, other.post) < (first.0.ripe, first.0.post) =>
            Some((other, queue)),
        (first, _) => first,
    }
}
