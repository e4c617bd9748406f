ghost use Rattle.std.specs.Prelude.{◌≡◌, ℕ, ◌+◌, ◌<◌, ◌≤◌, ◌^◌, not, List, [], length, map, replicate, slice_get, Some, IfOk};
ghost use Rattle.std.specs.List.{AllByRecursion};
ghost use Rattle.task_base.specs.Plan.{Plan, opened};
ghost use Rattle.task_base.specs.declared.limits.TheConstants.{MOST_QUEUES};
ghost use Rattle.task_base.specs.declared.entry.Entry.{Entry};
ghost use Rattle.queue_laws.specs.Orders.{Ordered};
ghost use Rattle.task_model.specs.Refusal.{is_closed};
ghost use Rattle.task_model.specs.Seats.{Running};
ghost use Rattle.sequence_manager.specs.Calls.{CanPost, CanTick, CanFence, CanVote, CanRank, HasQueue, CanTake, RunsMain, TakeAnswers, after_main, after_tick, after_fence, after_unfence, after_vote, after_rank, after_close, after_take, after_end};
ghost use Rattle.sequence_manager.specs.Pasts.{IsMainScript, IsQueueWithin};
ghost use Rattle.sequence_manager.specs.Queues.{is_out};
ghost use Rattle.sequence_manager.specs.StandsFor.{StandsFor};
ghost use Rattle.sequence_manager.specs.State.{CanPush, CanRefresh, fresh_manager, order_at, pushed, queue_at, refreshed, with_order_at};
ghost use Rattle.delayed_manager.specs.declared.ripening.Ripening.{Ripening};
ghost use Rattle.queue_selector.specs.Rows.{closed_row};
ghost use Rattle.sequence_manager.specs.Ripening.{CanRipen, ripened};

use crate::rooms::rooms;
use crate::task_queues::TaskQueues;
use queue_selector::Selector;
use std::alloc::{AllocError, Global};
use task_base::{Cell, FenceAt, Lane, Place, QueueId, Script, TaskId};

// The order that no task has and that is before all others, and the first one that is drawn (Chromium's
// `EnqueueOrder::blocking_fence` and `EnqueueOrder::first` of `enqueue_order.h`).
const BEFORE_ALL: u64 = 1;

const FIRST_ORDER: u64 = 2;

/// The main queues of a run (Chromium's `sequence_manager/sequence_manager_impl.h`): which main task runs next, by class,
/// order, fence, votes, time and starvation. Moments and delays are in microseconds. It runs nothing itself.
///
/// The driver makes all calls, and posts may be any task's. Shutdown leaves the main queues as they are: all of this goes
/// on after it.
///
/// A call stands for the entry of its kind in the history. All memory is taken by `new` or `open`. A tick looks at each queue
/// once for each task that ripens, and once more; no other call takes longer with more queues, but for what the selector
/// needs.
pub struct Manager {
    queues: TaskQueues,
    selector: Selector,
    /// The order that is drawn next (Chromium's `enqueue_order_generator.h`).
    next_order: u64,
    /// The moment of the last tick.
    moment: u64,
}

impl Drop for Manager {
    /// A crate that drops a manager, or what has one inside, goes by this code, and proves nothing of what lies in it.
    fn drop(self) {
        let Manager {
            queues: _,
            selector: _,
            next_order: _,
            moment: _,
        } = self;
    }
}

impl Manager {
    /// The main queues of a script at the start of its history. The error is want of memory.
    pub fn new(alloc: Global, script: &Script) -> Result<Manager, AllocError>
        requires { IsMainScript script.now }
        ensures { IfOk result (λ manager. StandsFor script.now [] manager) }
    {
        let rooms = rooms(alloc, script)?;
        Manager::with_rooms(alloc, script, rooms.as_slice())
    }

    /// The main queues of a script's open plan at the start of its history: each has room for all tasks. The error is want
    /// of memory.
    pub fn open(alloc: Global, script: &Script) -> Result<Manager, AllocError>
        requires { IsMainScript (opened script.now) }
        ensures { IfOk result (λ manager. StandsFor (opened script.now) [] manager) }
    {
        let room = script.tasks.len() as u32;
        let rooms = vec![in alloc; room; script.queues.len()]?;
        Manager::with_rooms(alloc, script, rooms.as_slice())
    }

    // The main queues that a script declares, each with room for so many tasks, before anything is done.
    fn with_rooms(alloc: Global, script: &Script, rooms: &[u32]) -> Result<Manager, AllocError>
        requires each { length rooms.now ≡ length script.now.queues }
        requires few { length script.now.queues ≤ MOST_QUEUES }
        requires within { AllByRecursion IsQueueWithin script.now.queues }
        ensures { IfOk result (λ manager. manager ≡ fresh_manager rooms.now script.now.queues) }
    {
        let queues = TaskQueues::new(alloc, script, rooms)?;
        let mut selector = Selector::new(alloc, script.queues.len() as u32)?;
        set_classes(&mut selector, script);
        Ok(Manager {
            queues,
            selector,
            next_order: FIRST_ORDER,
            moment: 0,
        })
    }

    /// Posts a task to a queue, with a delay, and answers whether it was accepted: a closed queue accepts none.
    pub fn post(&mut self, place: Place, task: TaskId, queue: QueueId, delay: u64) -> bool
        requires { (script : Plan) × (past : List Entry) × CanPost script past self.old place task queue delay }
        ensures reply { (script : Plan) (past : List Entry) → CanPost script past self.old place task queue delay
            → result ≡ not (is_closed past queue) }
        ensures stands { (script : Plan) (past : List Entry) (seat : ℕ) → CanPost script past self.old place task queue delay
            → StandsFor script (after_main past seat task queue delay result) self.new }
    {
        if self.queues.at(queue).closed {
            return false;
        }
        if delay > 0 {
            let ripe = self.moment + delay;
            self.queues.at_mut(queue).delayed.add(ripe, place, task);
        } else {
            self.push(queue, Lane::Immediate, task);
        }
        true
    }

    /// The clock has been read. The delayed tasks that have become ripe go to their lanes, those that ripened first
    /// before the others.
    pub fn tick(&mut self, moment: u64)
        requires { (script : Plan) × (past : List Entry) × CanTick script past self.old moment }
        ensures { (script : Plan) (past : List Entry) (seat : ℕ) → CanTick script past self.old moment
            → StandsFor script (after_tick past seat moment) self.new }
    {
        self.moment = moment;
        while let Some(queue) = self.queues.first_ripe(moment) {
            self.ripen(queue);
        }
    }

    /// Puts a fence into a queue: behind all tasks that have an order by now, or before all tasks.
    pub fn fence(&mut self, queue: QueueId, at: FenceAt)
        requires { (script : Plan) × (past : List Entry) × CanFence script past self.old queue }
        ensures { (script : Plan) (past : List Entry) (seat : ℕ) → CanFence script past self.old queue
            → StandsFor script (after_fence past seat queue at) self.new }
    {
        let order = self.order_at(at);
        self.queues.at_mut(queue).fence.set(order);
        self.refresh(queue);
    }

    /// Removes the fence of a queue, if it has one.
    pub fn unfence(&mut self, queue: QueueId)
        requires { (script : Plan) × (past : List Entry) × HasQueue script past self.old queue }
        ensures { (script : Plan) (past : List Entry) (seat : ℕ) → HasQueue script past self.old queue
            → StandsFor script (after_unfence past seat queue) self.new }
    {
        self.queues.at_mut(queue).fence.remove();
        self.refresh(queue);
    }

    /// A voter of a queue votes for it, or against it.
    pub fn vote(&mut self, queue: QueueId, voter: u8, on: bool)
        requires { (script : Plan) × (past : List Entry) × CanVote script past self.old queue voter }
        ensures { (script : Plan) (past : List Entry) (seat : ℕ) → CanVote script past self.old queue voter
            → StandsFor script (after_vote past seat queue voter on) self.new }
    {
        self.queues.at_mut(queue).voters.vote(voter, on);
        self.refresh(queue);
    }

    /// Puts a queue in another class.
    pub fn rank(&mut self, queue: QueueId, class: u8)
        requires { (script : Plan) × (past : List Entry) × CanRank script past self.old queue class }
        ensures { (script : Plan) (past : List Entry) (seat : ℕ) → CanRank script past self.old queue class
            → StandsFor script (after_rank past seat queue class) self.new }
    {
        self.selector.set_class(queue, class);
    }

    /// Closes a queue: its tasks are dropped, and it accepts no more. What was taken is done to its end.
    pub fn close(&mut self, queue: QueueId)
        requires { (script : Plan) × (past : List Entry) × HasQueue script past self.old queue }
        ensures { (script : Plan) (past : List Entry) (seat : ℕ) → HasQueue script past self.old queue
            → StandsFor script (after_close past seat queue) self.new }
    {
        self.queues.at_mut(queue).close();
        self.refresh(queue);
    }

    /// Takes the chosen front, with its queue and the cell of that, unless no front is open.
    pub fn take(&mut self) -> Option<(TaskId, QueueId, Cell)>
        requires { (script : Plan) × (past : List Entry) × CanTake script past self.old }
        ensures answer { (script : Plan) (past : List Entry) → CanTake script past self.old → TakeAnswers script past result }
        ensures stands { (script : Plan) (past : List Entry) → CanTake script past self.old → StandsFor script (after_take past result) self.new }
    {
        let (queue, lane) = self.selector.choose()?;
        self.selector.took(queue, lane);
        let (task, cell) = self.queues.at_mut(queue).take_out(lane);
        self.refresh(queue);
        Some((task, queue, cell))
    }

    /// The driver has ended its task, and brings the cell of its queue home.
    pub fn end(&mut self, queue: QueueId, cell: Cell)
        requires { (script : Plan) × (past : List Entry) × (w : Running) × RunsMain script past self.old queue w }
        ensures { (script : Plan) (past : List Entry) (w : Running) → RunsMain script past self.old queue w
            → StandsFor script (after_end past w.task cell) self.new }
    {
        self.queues.at_mut(queue).cell = Some(cell);
    }

    /// Whether the cell of a queue is out: from a take of one of its tasks to the end of that.
    pub fn is_cell_out(&self, queue: QueueId) -> bool
        requires { (script : Plan) × (past : List Entry) × HasQueue script past self.now queue }
        ensures { (script : Plan) (past : List Entry) → HasQueue script past self.now queue → result ≡ is_out past queue }
    {
        self.queues.at(queue).cell.is_none()
    }

    // Puts the first delayed task of a queue, which is ripe, at the end of its lane.
    fn ripen(&mut self, queue: QueueId)
        requires { (arrivals : List Ordered) × (first : Ripening) × CanRipen arrivals self.old queue first }
        ensures { (first : Ripening) → slice_get (queue_at self.old.queues queue).delayed.held 0 ≡ Some first
            → self.new ≡ ripened self.old queue first.task }
    {
        let moment = self.moment;
        if let Some(ripe) = self.queues.at_mut(queue).delayed.ripen(moment) {
            self.push(queue, Lane::Delayed, ripe.task);
        }
    }

    // Puts a task at the end of a lane, under the order that is drawn next.
    fn push(&mut self, queue: QueueId, lane: Lane, task: TaskId)
        requires { (arrivals : List Ordered) × CanPush arrivals self.old queue lane task }
        ensures { self.new ≡ pushed self.old queue lane task }
    {
        let order = self.draw();
        self.queues.at_mut(queue).tasks.push(lane, task, order);
        self.refresh(queue);
    }

    // The order of a fence at this place: one that is drawn now, or the one before all.
    fn order_at(&mut self, at: FenceAt) -> u64
        requires { self.old.next_order < 2 ^ 63 }
        ensures order { result ≡ order_at self.old at }
        ensures next { self.new ≡ with_order_at self.old at }
    {
        match at {
            FenceAt::Now => self.draw(),
            FenceAt::Start => BEFORE_ALL,
        }
    }

    // Draws the next order.
    fn draw(&mut self) -> u64
        requires { self.old.next_order < 2 ^ 63 }
        ensures order { result ≡ self.old.next_order }
        ensures next { self.new ≡ record self.old { next_order = self.old.next_order + 1 } }
    {
        let order = self.next_order;
        self.next_order += 1;
        order
    }

    // Tells the selector which fronts of a queue are open.
    fn refresh(&mut self, queue: QueueId)
        requires { (arrivals : List Ordered) × CanRefresh arrivals self.old queue }
        ensures { self.new ≡ refreshed self.old queue }
    {
        let told = self.queues.at(queue);
        let immediate = told.open_front(Lane::Immediate);
        let delayed = told.open_front(Lane::Delayed);
        self.selector.set_front(queue, Lane::Immediate, immediate);
        self.selector.set_front(queue, Lane::Delayed, delayed);
    }
}

// Tells a selector the class of each queue of a script.
fn set_classes(selector: &mut Selector, script: &Script)
    requires few { length script.now.queues ≤ MOST_QUEUES }
    requires within { AllByRecursion IsQueueWithin script.now.queues }
    requires fresh { selector.old ≡ record { rows = replicate (length script.now.queues) closed_row; streak = 0 } }
    ensures { selector.new ≡ record { rows = map (λ queue. record closed_row { class = queue.class }) script.now.queues; streak = 0 } }
{
    for place in 0..script.queues.len() {
        if let Some(queue) = script.queues.at(place) {
            selector.set_class(place as QueueId, queue.class);
        }
    }
}
