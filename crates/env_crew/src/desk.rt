ghost use Rattle.std.specs.Prelude.{◌≡◌, ◌<◌, ℕ, Bool, true, false, length};
ghost use Rattle.task_base.specs.declared.entry.JobReply.{JobReply};
ghost use Rattle.task_model.specs.Jobs.{item_value};
ghost use Rattle.task_base.specs.declared.entry.Kind.TheVariants as kinds;
ghost use Rattle.env_core.specs.Calls.{IsNextAct, CanEnd, CanEndMain};
ghost use Rattle.env_core.specs.Jobs.{CanEndItem};
ghost use Rattle.env_crew.specs.Calls.{Gives, GivesItem, GivesMain, HasActed, HasEnded, HasEndedMain, HasLooked, HasStepped, is_nothing};
ghost use Rattle.env_crew.specs.Calls.{HasEntered, HasPosted, HasPostedJob, HasPostedMain, HasTicked, TriesCancelled, TriesDone, TriesIdle, TriesJoined};
ghost use Rattle.env_crew.specs.Desk.{DeskView, Answers, AnswersWith, as_seen};
ghost use Rattle.env_crew.specs.Driving.{IsWanted};
ghost use Rattle.env_crew.specs.Serving.{IsFree};

use crate::assigned::Assigned;
use shutdown_phase::StillBlocked;
use std::sync::Wait;
use task_base::{
    FenceAt, JobId, JobReply, NotYet, Policy, Priority, QueueId, RunnerId, SeatNo, TaskId,
};
use task_body::{Act, JobPass, Taken};

/// One seat of an environment that many threads share (this project's own rule; a worker of Chromium's pool reaches the
/// shared pool through the delegate of `base/task/thread_pool/worker_thread.h`).
///
/// Each call but `number`, `job_value` and `sleep` takes the turn once, and so may wait for it. Between two calls other seats
/// may make entries, never this one. Seat 0 is the driver's, which performs the script. A condition is one on the seat's own
/// entries, or on its last call, so that no other seat can break it.
pub trait Desk {
    /// The assignment that `take` and `main_take` give.
    type Work: Assigned;

    /// What contracts see.
    ghost desk: { Self → DeskView };

    /// The seat's number: 0 for the driver, 1 and above for a worker. It takes no turn.
    fn number(&self) -> SeatNo
        ensures { result ≡ (desk self.now).seat };

    /// The driver posts a task to a runner, with a delay in microseconds. False where the post is refused.
    fn post<R: Wait>(&mut self, rt: &R, task: TaskId, runner: RunnerId, delay: u64) -> bool
        requires { (ok : Bool) → IsWanted (desk self.old) (kinds.Post task runner delay ok) }
        ensures { Answers (desk self.old) (desk self.new) (HasPosted (desk self.old).seat task runner delay result) };

    /// The driver posts a task to a main queue, with a delay in microseconds. False where the queue is closed.
    fn main_post<R: Wait>(&mut self, rt: &R, task: TaskId, queue: QueueId, delay: u64) -> bool
        requires { (ok : Bool) → IsWanted (desk self.old) (kinds.Main task queue delay ok) }
        ensures { Answers (desk self.old) (desk self.new) (HasPostedMain (desk self.old).seat task queue delay result) };

    /// The driver has read the clock, in microseconds. Answers the moment that is entered.
    fn tick<R: Wait>(&mut self, rt: &R, reading: u64) -> u64
        requires { (now : ℕ) → IsWanted (desk self.old) (kinds.Tick now) }
        ensures { Answers (desk self.old) (desk self.new) (HasTicked (desk self.old).seat reading result) };

    /// The driver puts another policy in force.
    fn policy<R: Wait>(&mut self, rt: &R, policy: Policy)
        requires { IsWanted (desk self.old) (kinds.Policy policy) }
        ensures { Answers (desk self.old) (desk self.new) (HasEntered (desk self.old).seat (kinds.Policy policy)) };

    /// The driver gives a runner another priority: its tasks that wait go by it from now on, and what runs counts as it was
    /// taken.
    fn reprio<R: Wait>(&mut self, rt: &R, runner: RunnerId, priority: Priority)
        requires { IsWanted (desk self.old) (kinds.Reprio runner priority) }
        ensures { Answers (desk self.old) (desk self.new) (HasEntered (desk self.old).seat (kinds.Reprio runner priority)) };

    /// The driver puts a fence into a main queue: behind all tasks that are ready by now, or before all tasks. It takes the
    /// place of the one that stands.
    fn fence<R: Wait>(&mut self, rt: &R, queue: QueueId, at: FenceAt)
        requires { IsWanted (desk self.old) (kinds.Fence queue at) }
        ensures { Answers (desk self.old) (desk self.new) (HasEntered (desk self.old).seat (kinds.Fence queue at)) };

    /// The driver removes the fence of a main queue, if it has one.
    fn unfence<R: Wait>(&mut self, rt: &R, queue: QueueId)
        requires { IsWanted (desk self.old) (kinds.Unfence queue) }
        ensures { Answers (desk self.old) (desk self.new) (HasEntered (desk self.old).seat (kinds.Unfence queue)) };

    /// A voter of a main queue votes for it, or against it: the queue is enabled while all of its voters are for it.
    fn vote<R: Wait>(&mut self, rt: &R, queue: QueueId, voter: u8, on: bool)
        requires { IsWanted (desk self.old) (kinds.Vote queue voter on) }
        ensures { Answers (desk self.old) (desk self.new) (HasEntered (desk self.old).seat (kinds.Vote queue voter on)) };

    /// The driver puts a main queue in another class.
    fn rank<R: Wait>(&mut self, rt: &R, queue: QueueId, class: u8)
        requires { IsWanted (desk self.old) (kinds.Rank queue class) }
        ensures { Answers (desk self.old) (desk self.new) (HasEntered (desk self.old).seat (kinds.Rank queue class)) };

    /// The driver closes a main queue: its tasks that have not started never run, and it accepts no more.
    fn close_queue<R: Wait>(&mut self, rt: &R, queue: QueueId)
        requires { IsWanted (desk self.old) (kinds.Close queue) }
        ensures { Answers (desk self.old) (desk self.new) (HasEntered (desk self.old).seat (kinds.Close queue)) };

    /// The driver, inside a pump and with no task, takes the chosen front of the main queues. None where no front is open,
    /// which is entered and ends the pump.
    fn main_take<R: Wait>(&mut self, rt: &R) -> Option<Self::Work>
        requires { IsWanted (desk self.old) kinds.MainNone }
        ensures { Answers (desk self.old) (desk self.new) (GivesMain Self.Work.work (desk self.old).seat result) };

    /// The driver has ended its main task.
    fn main_end<R: Wait>(&mut self, rt: &R, work: Self::Work)
        requires { CanEndMain (as_seen (desk self.old)) (desk self.old).seat (Self.Work.work work) }
        ensures { Answers (desk self.old) (desk self.new) (HasEndedMain (desk self.old).seat (Self.Work.work work)) };

    /// A worker asks for work. Nothing may change to a task at any moment, Over never changes.
    fn take<R: Wait>(&mut self, rt: &R) -> Taken<Self::Work>
        requires { IsFree (desk self.old) }
        ensures { Answers (desk self.old) (desk self.new) (Gives Self.Work.work (desk self.old).seat result) };

    /// As `take`, but where it answers Nothing the seat is noted as one that rests, in the same hold: whoever makes work that
    /// it may take wakes it, and it may `sleep` until then.
    fn take_or_rest<R: Wait>(&mut self, rt: &R) -> Taken<Self::Work>
        requires { IsFree (desk self.old) }
        ensures { AnswersWith (is_nothing result) (desk self.old) (desk self.new) (Gives Self.Work.work (desk self.old).seat result) };

    /// The driver, which waits, has its seat noted as one that rests: whoever brings about what it waits for wakes it, and it
    /// may `sleep` until then. Where that has come already, it is woken at once.
    fn rest<R: Wait>(&mut self, rt: &R)
        ensures { AnswersWith true (desk self.old) (desk self.new) HasLooked };

    /// The seat's thread, whose last call noted the seat as one that rests, sleeps until the seat is woken, and not at all where
    /// it was woken since it was noted. Once for each note. It takes no turn.
    fn sleep<R: Wait>(&mut self, rt: &R)
        requires { (desk self.old).rests ≡ true }
        ensures { desk self.new ≡ record (desk self.old) { rests = false } };

    /// The seat's task does its next act step. False where that is a post that is refused.
    fn act<R: Wait>(&mut self, rt: &R, act: Act) -> bool
        requires { IsNextAct (as_seen (desk self.old)) (desk self.old).seat act }
        ensures { Answers (desk self.old) (desk self.new) (HasActed (desk self.old).seat act result) };

    /// A worker has ended its task.
    fn end<R: Wait>(&mut self, rt: &R, work: Self::Work)
        requires { CanEnd (as_seen (desk self.old)) (desk self.old).seat (Self.Work.work work) }
        ensures { Answers (desk self.old) (desk self.new) (HasEnded (desk self.old).seat (Self.Work.work work)) };

    /// The driver posts a job. False where the post is refused.
    fn job_post<R: Wait>(&mut self, rt: &R, job: JobId) -> bool
        requires { (ok : Bool) → IsWanted (desk self.old) (kinds.JobPost job ok) }
        ensures { Answers (desk self.old) (desk self.new) (HasPostedJob (desk self.old).seat job result) };

    /// The driver, inside a join and with no item, goes into the job. None where it may not.
    fn job_take<R: Wait>(&mut self, rt: &R, job: JobId) -> Option<JobPass>
        requires { (id item : ℕ) → IsWanted (desk self.old) (kinds.JobTake job id item) }
        ensures { Answers (desk self.old) (desk self.new) (GivesItem (desk self.old).seat job result) };

    /// The seat has ended its item with a value. It goes on with the item that is given, or has left the job.
    fn job_step<R: Wait>(&mut self, rt: &R, pass: JobPass, value: u64) -> Option<JobPass>
        requires { CanEndItem (as_seen (desk self.old)) (desk self.old).seat pass value }
        ensures { Answers (desk self.old) (desk self.new) (HasStepped (desk self.old).seat pass value result) };

    /// The driver cancels a job: nobody goes in any more, and who is inside leaves at the end of its item.
    fn job_cancel<R: Wait>(&mut self, rt: &R, job: JobId)
        requires { IsWanted (desk self.old) (kinds.JobCancel job) }
        ensures { Answers (desk self.old) (desk self.new) (HasEntered (desk self.old).seat (kinds.JobCancel job)) };

    /// The driver waits for a job that it has cancelled. The error is that somebody is inside, and the driver may ask again.
    fn try_cancelled<R: Wait>(&mut self, rt: &R, job: JobId) -> Result<(), NotYet>
        requires { IsWanted (desk self.old) (kinds.Cancelled job) }
        ensures { Answers (desk self.old) (desk self.new) (TriesCancelled (desk self.old).seat job result) };

    /// The driver waits for the reply of a job that it joins. The error is that somebody is inside, or that there is none
    /// yet, and the driver may ask again.
    fn try_joined<R: Wait>(&mut self, rt: &R, job: JobId) -> Result<JobReply, NotYet>
        requires { (reply : JobReply) → IsWanted (desk self.old) (kinds.Joined job reply) }
        ensures { Answers (desk self.old) (desk self.new) (TriesJoined (desk self.old).seat job result) };

    /// The value of an item of a job. It takes no turn.
    fn job_value(&self, job: JobId, item: u32) -> u64
        requires { job < length (desk self.now).script.jobs }
        ensures { result ≡ item_value (desk self.now).script job item };

    /// The driver waits for the pool. The error is that it is not idle, and the driver may ask again.
    fn try_idle<R: Wait>(&mut self, rt: &R) -> Result<(), NotYet>
        requires { IsWanted (desk self.old) kinds.Idle }
        ensures { Answers (desk self.old) (desk self.new) (TriesIdle (desk self.old).seat result) };

    /// The driver starts shutdown: from now on only block work is accepted and may start. The seat is told of it.
    fn start_shutdown<R: Wait>(&mut self, rt: &R)
        requires { IsWanted (desk self.old) kinds.Shutdown }
        ensures answer { Answers (desk self.old) (desk self.new) (HasEntered (desk self.old).seat kinds.Shutdown) }
        ensures told { (desk self.new).told ≡ true };

    /// The driver ends shutdown. The error is that something still blocks it, and the driver may ask again.
    fn try_done<R: Wait>(&mut self, rt: &R) -> Result<(), StillBlocked>
        requires { IsWanted (desk self.old) kinds.Done }
        ensures { Answers (desk self.old) (desk self.new) (TriesDone (desk self.old).seat result) };
}
