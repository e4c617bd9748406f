ghost use Rattle.std.specs.Prelude.{◌≡◌, ◌<◌, Bool, length, not};
ghost use Rattle.env_core.specs.Calls.{CanEndMain, IsWantedNext, MainTakeGives};
ghost use Rattle.env_core.specs.Ledger.{MayEnter};
ghost use Rattle.env_core.specs.Views.{Enters};
ghost use Rattle.sequence_manager.specs.Queues.{is_out};
ghost use Rattle.task_model.specs.Refusal.{is_closed};

use crate::agenda::Shift;
use crate::drawer::{keep_if, take_body};
use crate::env::Env;
use task_base::{FenceAt, Kind, QueueId, SeatNo, TaskId};
use task_body::{Assignment, TaskBody};

// Main queues: the driver posts to them, sets their fences, votes, classes and ends, and runs their tasks.
impl<B: TaskBody> Env<B> {
    /// The driver posts a task to a main queue, with a delay in microseconds. A refused post drops the task's body.
    pub fn main_post(&mut self, seat: SeatNo, task: TaskId, queue: QueueId, delay: u64) -> bool
        requires { (ok : Bool) → IsWantedNext self.old seat (Kind.Main task queue delay ok) }
        ensures reply { result ≡ not (is_closed self.old.history queue) }
        ensures enters { Enters self.old self.new seat (Kind.Main task queue delay result) }
    {
        self.enter_main_post(seat, task, queue, delay, Shift::Counts)
    }

    /// The driver puts a fence into a main queue: behind all tasks that are ready by now, or before all tasks.
    pub fn fence(&mut self, seat: SeatNo, queue: QueueId, at: FenceAt)
        requires { IsWantedNext self.old seat (Kind.Fence queue at) }
        ensures { Enters self.old self.new seat (Kind.Fence queue at) }
    {
        self.main.fence(queue, at);
        self.ledger
            .enter(seat, Kind::Fence { queue, at }, Shift::Counts);
    }

    /// The driver removes the fence of a main queue, if it has one.
    pub fn unfence(&mut self, seat: SeatNo, queue: QueueId)
        requires { IsWantedNext self.old seat (Kind.Unfence queue) }
        ensures { Enters self.old self.new seat (Kind.Unfence queue) }
    {
        self.main.unfence(queue);
        self.ledger
            .enter(seat, Kind::Unfence { queue }, Shift::Counts);
    }

    /// A voter of a main queue votes for it, or against it.
    pub fn vote(&mut self, seat: SeatNo, queue: QueueId, voter: u8, on: bool)
        requires { IsWantedNext self.old seat (Kind.Vote queue voter on) }
        ensures { Enters self.old self.new seat (Kind.Vote queue voter on) }
    {
        self.main.vote(queue, voter, on);
        self.ledger
            .enter(seat, Kind::Vote { queue, voter, on }, Shift::Counts);
    }

    /// The driver puts a main queue in another class.
    pub fn rank(&mut self, seat: SeatNo, queue: QueueId, class: u8)
        requires { IsWantedNext self.old seat (Kind.Rank queue class) }
        ensures { Enters self.old self.new seat (Kind.Rank queue class) }
    {
        self.main.rank(queue, class);
        self.ledger
            .enter(seat, Kind::Rank { queue, class }, Shift::Counts);
    }

    /// The driver closes a main queue: its tasks never run, and it accepts no more. What was taken is done to its end.
    pub fn close_queue(&mut self, seat: SeatNo, queue: QueueId)
        requires { IsWantedNext self.old seat (Kind.Close queue) }
        ensures { Enters self.old self.new seat (Kind.Close queue) }
    {
        self.main.close(queue);
        self.ledger
            .enter(seat, Kind::Close { queue }, Shift::Counts);
    }

    /// The driver, inside a pump and with no task, takes the chosen front of the main queues, whose body leaves the drawer.
    /// None where no front is open, which completes the pump.
    pub fn main_take(&mut self, seat: SeatNo) -> Option<Assignment<B>>
        requires { IsWantedNext self.old seat Kind.MainNone }
        ensures { MainTakeGives self.old self.new seat result }
    {
        match self.main.take() {
            None => {
                self.ledger.enter(seat, Kind::MainNone, Shift::Completes);
                None
            }
            Some((task, queue, cell)) => {
                let body = take_body(&mut self.bodies, task);
                self.ledger.enter(
                    seat,
                    Kind::MainTake {
                        task,
                        queue,
                        found: cell.value(),
                    },
                    Shift::Stays,
                );
                Some(Assignment::new(task, queue, cell, body))
            }
        }
    }

    /// The driver has ended its main task: the cell goes home with what the task left. Answers the body, which is done.
    pub fn main_end(&mut self, seat: SeatNo, work: Assignment<B>) -> Box<B>
        requires { CanEndMain self.old seat work }
        ensures { Enters self.old self.new seat (Kind.MainEnd work.task work.value) }
    {
        let task = work.task();
        let queue = work.home();
        let (cell, body) = work.split_up();
        let left = cell.value();
        self.main.end(queue, cell);
        self.ledger
            .enter(seat, Kind::MainEnd { task, left }, Shift::Counts);
        body
    }

    /// Whether the cell of a main queue is out: from a take of one of its tasks to the end of that.
    pub fn is_main_cell_out(&self, queue: QueueId) -> bool
        requires { queue < length self.now.script.queues }
        ensures { result ≡ is_out self.now.history queue }
    {
        self.main.is_cell_out(queue)
    }

    // A post to a main queue, by the script or by a task.
    pub(super) fn enter_main_post(
        &mut self,
        seat: SeatNo,
        task: TaskId,
        queue: QueueId,
        delay: u64,
        shift: Shift,
    ) -> bool
        requires { MayEnter self.old seat (Kind.Main task queue delay (not (is_closed self.old.history queue))) shift }
        ensures reply { result ≡ not (is_closed self.old.history queue) }
        ensures enters { Enters self.old self.new seat (Kind.Main task queue delay result) }
    {
        let ok = self.main.post(self.ledger.len(), task, queue, delay);
        keep_if(ok, &mut self.bodies, task);
        self.ledger.enter(
            seat,
            Kind::Main {
                task,
                queue,
                delay,
                ok,
            },
            shift,
        );
        ok
    }
}
