ghost use Rattle.std.specs.Prelude.{◌≡◌, ◌≤◌, ℕ, [], List, length, IfOk, Err, Some, None, replicate};
ghost use Rattle.task_base.specs.Plan.{Plan, opened};
ghost use Rattle.task_base.specs.declared.entry.Entry.{Entry};
ghost use Rattle.task_base.specs.declared.limits.TheConstants.{MOST_RUNNERS};
ghost use Rattle.script_model.specs.Laws.Sound.{IsSound};
ghost use Rattle.live_core.specs.Answers.{Gives};
ghost use Rattle.live_core.specs.Making.{CanMake, Makes};
ghost use Rattle.live_core.specs.Opening.{guest_runner, is_bound_to, is_guests};
ghost use Rattle.live_core.specs.StandsFor.{StandsFor};

mod driver;
mod jobs;
mod main_tasks;
mod posts;
mod seats;
mod work;

use crate::books::Books;
use crate::call::Call;
use crate::unmade::{OpenError, Unmade};
use pool_core::Pool;
use sequence_manager::Manager;
use std::alloc::{AllocError, Global};
use task_base::{Cell, Kind, RunnerId, RunnerKind, Script, SeatNo};

/// The environment of a process (Chromium's `base/task` as a browser holds it): its pool, its main queues, and what each seat
/// does.
///
/// A plan says what there is: so many seats, runners, main queues, tasks and jobs. Whoever holds the core makes calls as they
/// like, one at a time, each for one seat: the threads, and the lock, are theirs. A call adds one entry to the history, which
/// nobody keeps, or none. All memory is taken by `open`.
///
/// Between its take and its end a task's cell has what it found; at the end it has what the plan's steps of the task leave of
/// that. So tasks of one step `add 1` find how many tasks of their sequence ended before them.
#[derive(Drop)]
pub struct LiveCore {
    books: Books,
    pool: Pool,
    main: Manager,
    /// The cell of the task that each seat runs.
    cells: Vec<Option<Cell>>,
}

impl LiveCore {
    /// The environment of a script's open plan: what the script declares, and none of its actions. The last seat is the guest's.
    /// The error is out of memory, or a runner that is bound to the guest's seat.
    pub fn open(alloc: Global, script: Script) -> Result<LiveCore, OpenError>
        requires { IsSound script }
        ensures stands { IfOk result (λ live. StandsFor (opened script) [] live) }
        ensures free_guest { IfOk result (λ live. guest_runner script ≡ None) }
        ensures bound_guest { (runner : ℕ) → result ≡ Err (OpenError.GuestRunner runner) → guest_runner script ≡ Some runner }
    {
        if let Some(runner) = guest_runner(&script) {
            return Err(OpenError::GuestRunner { runner });
        }
        LiveCore::fresh(alloc, script).map_err(OpenError::OutOfMemory)
    }

    /// Makes a call. Answers the kind of the entry that was made, by the call's seat, or why there is none.
    pub fn call(&mut self, call: Call) -> Result<Kind, Unmade>
        requires { (plan : Plan) × (past : List Entry) × StandsFor plan past self.old }
        ensures { (plan : Plan) (past : List Entry) → StandsFor plan past self.old → Gives plan past call self.old self.new result }
    {
        if !self.books.fits(call) {
            return Err(Unmade::Misuse);
        }
        if self.books.is_full(call) {
            return Err(Unmade::Full);
        }
        let kind = self.make(call)?;
        self.books.enter(call.seat(), kind);
        Ok(kind)
    }

    // The environment of a script's open plan. The error is out of memory.
    fn fresh(alloc: Global, script: Script) -> Result<LiveCore, AllocError>
        requires { IsSound script }
        ensures { IfOk result (λ live. StandsFor (opened script) [] live) }
    {
        let pool = Pool::new(alloc, &script)?;
        let main = Manager::open(alloc, &script)?;
        let cells = no_cells(alloc, script.workers as usize + 1)?;
        let books = Books::open(alloc, script)?;
        Ok(LiveCore {
            books,
            pool,
            main,
            cells,
        })
    }

    // Moves the machines by a call that may be made, and answers the kind of its entry.
    fn make(&mut self, call: Call) -> Result<Kind, Unmade>
        requires { (plan : Plan) × (past : List Entry) × CanMake plan past call self.old }
        ensures { (plan : Plan) (past : List Entry) → CanMake plan past call self.old → Makes plan past call self.old self.new result }
    {
        match call {
            Call::Post {
                seat,
                task,
                runner,
                delay,
            } => self.post(seat, task, runner, delay),
            Call::Main {
                seat,
                task,
                queue,
                delay,
            } => self.main_post(seat, task, queue, delay),
            Call::Tick { reading } => self.tick(reading),
            Call::Take { seat } => self.take(seat),
            Call::End { seat } => self.end(seat),
            Call::Enter { seat, scope } => self.enter_scope(seat, scope),
            Call::Leave { seat } => self.leave_scope(seat),
            Call::Policy { policy } => self.policy(policy),
            Call::Reprio { runner, priority } => self.reprio(runner, priority),
            Call::Fence { queue, at } => self.fence(queue, at),
            Call::Unfence { queue } => self.unfence(queue),
            Call::Vote { queue, voter, on } => self.vote(queue, voter, on),
            Call::Rank { queue, class } => self.rank(queue, class),
            Call::Close { queue } => self.close_queue(queue),
            Call::MainTake => self.main_take(),
            Call::MainEnd => self.main_end(),
            Call::JobPost { job } => self.job_post(job),
            Call::JobTake { job } => self.job_take(job),
            Call::JobStep { seat } => self.job_step(seat),
            Call::JobCancel { job } => self.job_cancel(job),
            Call::Cancelled { job } => self.try_cancelled(job),
            Call::Joined { job } => self.try_joined(job),
            Call::Idle => self.try_idle(),
            Call::Shutdown => self.start_shutdown(),
            Call::Done => self.try_done(),
        }
    }
}

// No cell at any of so many seats. The error is out of memory.
fn no_cells(alloc: Global, seats: usize) -> Result<Vec<Option<Cell>>, AllocError>
    ensures { IfOk result (λ cells. cells.items ≡ replicate seats None) }
{
    let mut cells = Vec::with_capacity(alloc, seats)?;
    for _ in 0..seats {
        cells.push(None)?;
    }
    Ok(cells)
}

// The first runner that is bound to the last seat, if there is one.
fn guest_runner(script: &Script) -> Option<RunnerId>
    requires { length script.now.runners ≤ MOST_RUNNERS }
    ensures { result ≡ guest_runner script.now }
{
    for place in 0..script.runners.len() {
        if is_guests(script, place) {
            return Some(place as RunnerId);
        }
    }
    None
}

// Whether there is a runner at the place that is bound to the last seat.
fn is_guests(script: &Script, place: usize) -> bool
    ensures { result ≡ is_guests script.now place }
{
    match script.runners.at(place) {
        Some(runner) => is_bound_to(runner.kind, script.workers),
        None => false,
    }
}

// Whether a runner of this kind is bound to a seat.
fn is_bound_to(kind: RunnerKind, seat: SeatNo) -> bool
    ensures { result ≡ is_bound_to kind seat }
{
    match kind {
        RunnerKind::Single(bound) => bound == seat,
        _ => false,
    }
}
