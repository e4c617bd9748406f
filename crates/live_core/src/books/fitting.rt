ghost use Rattle.std.specs.Prelude.{◌≡◌, ℕ, ◌&&◌, nat_lt, nat_le, if◌then◌else◌, length, List, Some, None, is_some};
ghost use Rattle.std.specs.List.{list_all};
ghost use Rattle.task_base.specs.Plan.{Plan};
ghost use Rattle.task_base.specs.declared.entry.Entry.{Entry};
ghost use Rattle.script_model.specs.Draft.{is_voter, may_block_on};
ghost use Rattle.task_model.specs.Capacity.{open_scope};
ghost use Rattle.task_model.specs.Seats.{is_free, is_quiet};
ghost use Rattle.live_core.specs.Books.{StandFor, at_seat, is_idle, mark_of};
ghost use Rattle.live_core.specs.Calls.{fits, is_driving, is_posting, is_taker, job_fits, may_close, may_end, may_end_main, may_open, names};

use crate::books::{Books, Item, JobMark, Seat, Work};
use crate::call::Call;
use task_base::{Phase, QueueId, RunnerId, SeatNo, TaskId};

// Which calls may come.
impl Books {
    /// Whether a call is one that its seat may make now, and names what is declared.
    pub(crate) fn fits(&self, call: Call) -> bool
        requires { (plan : Plan) × (past : List Entry) × StandFor plan past self.now }
        ensures { (plan : Plan) (past : List Entry) → StandFor plan past self.now → result ≡ fits plan past call }
    {
        match call {
            Call::Post {
                seat,
                task,
                runner,
                delay,
            } => self.may_post(seat, task, runner, delay),
            Call::Main {
                seat,
                task,
                queue,
                delay,
            } => self.may_main_post(seat, task, queue, delay),
            Call::Tick { .. } => !self.is_done(),
            Call::Take { seat } => self.is_taker(seat),
            Call::End { seat } => self.may_end(seat),
            Call::Enter { seat, .. } => self.may_open(seat),
            Call::Leave { seat } => self.may_close(seat),
            Call::MainEnd => self.may_end_main(),
            Call::JobStep { seat } => self.holds(seat).is_some(),
            _ => self.is_driving() && self.names(call),
        }
    }

    /// What a seat does, if there is that seat.
    pub(crate) fn seat(&self, seat: SeatNo) -> Option<Seat>
        ensures { (plan : Plan) (past : List Entry) → StandFor plan past self.now
            → result ≡ (if nat_le seat plan.workers then Some (at_seat past seat) else None) }
    {
        self.seats.get(seat as usize).copied()
    }

    /// The task that a seat runs, if there is that seat and it runs one.
    pub(crate) fn runs(&self, seat: SeatNo) -> Option<Work>
        ensures { (plan : Plan) (past : List Entry) → StandFor plan past self.now
            → result ≡ (if nat_le seat plan.workers then (at_seat past seat).runs else None) }
    {
        self.seat(seat)?.runs
    }

    /// The item that a seat holds, if there is that seat and it holds one.
    pub(crate) fn holds(&self, seat: SeatNo) -> Option<Item>
        ensures { (plan : Plan) (past : List Entry) → StandFor plan past self.now
            → result ≡ (if nat_le seat plan.workers then (at_seat past seat).holds else None) }
    {
        self.seat(seat)?.holds
    }

    /// Whether there is the seat, and it may post.
    pub(super) fn is_posting(&self, seat: SeatNo) -> bool
        ensures { (plan : Plan) (past : List Entry) → StandFor plan past self.now → result ≡ is_posting plan past seat }
    {
        match self.seat(seat) {
            Some(at) => seat == 0 || seat == self.script.workers || at.runs.is_some(),
            None => false,
        }
    }

    // Whether the seat is a worker's that does nothing, and not the guest's.
    fn is_taker(&self, seat: SeatNo) -> bool
        ensures { (plan : Plan) (past : List Entry) → StandFor plan past self.now → result ≡ is_taker plan past seat }
    {
        seat >= 1 && seat < self.script.workers && self.is_free(seat)
    }

    // Whether there is the seat, and it does nothing.
    fn is_free(&self, seat: SeatNo) -> bool
        ensures { (plan : Plan) (past : List Entry) → StandFor plan past self.now → result ≡ (nat_le seat plan.workers && is_free past seat) }
    {
        match self.seat(seat) {
            Some(at) => at.is_idle(),
            None => false,
        }
    }

    /// Whether no seat runs a task, and none holds an item.
    pub(crate) fn is_quiet(&self) -> bool
        ensures { (plan : Plan) (past : List Entry) → StandFor plan past self.now → result ≡ is_quiet plan past }
    {
        are_idle(self.seats.as_slice())
    }

    // Whether the seat runs a task of the pool that has no scope open.
    fn may_end(&self, seat: SeatNo) -> bool
        requires { (plan : Plan) × (past : List Entry) × StandFor plan past self.now }
        ensures { (plan : Plan) (past : List Entry) → StandFor plan past self.now → result ≡ may_end plan past seat }
    {
        match self.runs(seat) {
            Some(work) => !work.is_main && !self.is_in_scope(work),
            None => false,
        }
    }

    // Whether the driver runs a main task, which has no scope open.
    fn may_end_main(&self) -> bool
        requires { (plan : Plan) × (past : List Entry) × StandFor plan past self.now }
        ensures { (plan : Plan) (past : List Entry) → StandFor plan past self.now → result ≡ may_end_main past }
    {
        match self.runs(0) {
            Some(work) => work.is_main && !self.is_in_scope(work),
            None => false,
        }
    }

    // Whether the seat runs a task of the pool that may block, and has no scope open.
    fn may_open(&self, seat: SeatNo) -> bool
        requires { (plan : Plan) × (past : List Entry) × StandFor plan past self.now }
        ensures { (plan : Plan) (past : List Entry) → StandFor plan past self.now → result ≡ may_open plan past seat }
    {
        match self.runs(seat) {
            Some(work) => !work.is_main && self.may_block_on(work.home) && !self.is_in_scope(work),
            None => false,
        }
    }

    // Whether the seat runs a task of the pool that has a scope open.
    fn may_close(&self, seat: SeatNo) -> bool
        requires { (plan : Plan) × (past : List Entry) × StandFor plan past self.now }
        ensures { (plan : Plan) (past : List Entry) → StandFor plan past self.now → result ≡ may_close plan past seat }
    {
        match self.runs(seat) {
            Some(work) => !work.is_main && self.is_in_scope(work),
            None => false,
        }
    }

    // Whether a task has a scope open.
    fn is_in_scope(&self, work: Work) -> bool
        ensures { (plan : Plan) (past : List Entry) → StandFor plan past self.now → result ≡ is_some (open_scope past work.task) }
    {
        self.scopes
            .get(work.task as usize)
            .copied()
            .unwrap_or(false)
    }

    // Whether shutdown is not done, and the driver does nothing.
    fn is_driving(&self) -> bool
        ensures { (plan : Plan) (past : List Entry) → StandFor plan past self.now → result ≡ is_driving past }
    {
        !self.is_done() && self.is_free(0)
    }

    // Whether a call of the driver names what is declared, and comes in its order.
    fn names(&self, call: Call) -> bool
        ensures { (plan : Plan) (past : List Entry) → StandFor plan past self.now → result ≡ names plan past call }
    {
        match call {
            Call::Reprio { runner, .. } => self.has_runner(runner),
            Call::Fence { queue, .. } | Call::Unfence { queue } | Call::Close { queue } => {
                self.has_queue(queue)
            }
            Call::Vote { queue, voter, .. } => self.has_voter(queue, voter),
            Call::Rank { queue, class } => self.has_queue(queue) && class <= 7,
            Call::Shutdown => matches!(self.phase, Phase::Running),
            Call::Done => matches!(self.phase, Phase::Started),
            Call::JobPost { job }
            | Call::JobTake { job }
            | Call::JobCancel { job }
            | Call::Cancelled { job }
            | Call::Joined { job } => match self.jobs.get(job as usize) {
                Some(mark) => is_job_call(call, *mark),
                None => false,
            },
            _ => true,
        }
    }

    pub(super) fn has_task(&self, task: TaskId) -> bool
        ensures { result ≡ nat_lt task (length self.now.script.tasks) }
    {
        (task as usize) < self.script.tasks.len()
    }

    pub(super) fn has_runner(&self, runner: RunnerId) -> bool
        ensures { result ≡ nat_lt runner (length self.now.script.runners) }
    {
        (runner as usize) < self.script.runners.len()
    }

    pub(super) fn has_queue(&self, queue: QueueId) -> bool
        ensures { result ≡ nat_lt queue (length self.now.script.queues) }
    {
        (queue as usize) < self.script.queues.len()
    }

    fn has_voter(&self, queue: QueueId, voter: u8) -> bool
        ensures { result ≡ is_voter self.now.script.queues queue voter }
    {
        match self.script.queues.at(queue as usize) {
            Some(queue) => voter < queue.voters,
            None => false,
        }
    }

    fn may_block_on(&self, runner: RunnerId) -> bool
        ensures { result ≡ may_block_on self.now.script.runners runner }
    {
        match self.script.runners.at(runner as usize) {
            Some(runner) => runner.traits.may_block,
            None => false,
        }
    }
}

// Whether none of these seats does anything.
fn are_idle(seats: &[Seat]) -> bool
    ensures { result ≡ list_all is_idle seats.now }
{
    seats.iter().all(|seat| seat.is_idle())
}

// Whether a call on a job that is declared comes in its order.
fn is_job_call(call: Call, mark: JobMark) -> bool
    ensures { (past : List Entry) (job : ℕ) → mark ≡ mark_of past job → result ≡ job_fits past call job }
{
    match call {
        Call::JobPost { .. } => !mark.posted,
        Call::JobCancel { .. } | Call::Joined { .. } => mark.posted,
        Call::Cancelled { .. } => mark.cancelled,
        _ => true,
    }
}
