ghost use Rattle.std.specs.Prelude.{◌≡◌, ℕ, ◌<◌, ◌^◌, length, List, [], IfOk};
ghost use Rattle.task_base.specs.Plan.{Plan, opened};
ghost use Rattle.task_base.specs.declared.entry.Entry.{Entry};
ghost use Rattle.task_base.specs.Entries.{next};
ghost use Rattle.hist_model.specs.Open.{is_done};
ghost use Rattle.script_model.specs.Laws.Sound.{IsSound};
ghost use Rattle.task_model.specs.Phase.{phase_after};
ghost use Rattle.live_core.specs.Books.{CanEnter, NamesJob, NamesScope, NamesTask, StandFor, holds_after, is_idle, jobs_after, posted_after, runs_after, scopes_after};
ghost use Rattle.live_core.specs.Calls.{is_full, spare_task, task_of};

mod fitting;
mod posting;
mod tables;

use crate::books::tables::{first_unmarked, fresh_jobs, fresh_seats, kept_tasks, no_marks};
use crate::call::Call;
use std::alloc::{AllocError, Global};
use task_base::{JobId, Kind, Phase, Place, Script, SeatNo, TaskId};

// The most entries that are made: a place has 32 bits.
const MOST_ENTRIES: Place = 4_294_967_295;

/// A task that a seat runs: its number, its runner or main queue, and what it found.
#[derive(Clone, Copy, Debug)]
pub(crate) struct Work {
    pub(crate) task: TaskId,
    pub(crate) home: u32,
    pub(crate) found: u64,
    pub(crate) is_main: bool,
}

/// An item of a job that a seat holds, under its number there.
#[derive(Clone, Copy, Debug)]
pub(crate) struct Item {
    pub(crate) job: JobId,
    pub(crate) id: u32,
    pub(crate) item: u32,
}

/// What a seat does.
#[derive(Clone, Copy, Debug)]
pub(crate) struct Seat {
    pub(crate) runs: Option<Work>,
    pub(crate) holds: Option<Item>,
}

/// What was done with a job.
#[derive(Clone, Copy, Debug)]
pub(crate) struct JobMark {
    pub(crate) posted: bool,
    pub(crate) cancelled: bool,
}

/// What the calls look at: the plan, what each seat does, and of the past as much as tells which call may come.
#[derive(Drop)]
pub(crate) struct Books {
    script: Script,
    /// Whether a step of some task posts the task, which is handed out to nobody then.
    kept: Vec<bool>,
    /// Whether the task was posted.
    posted: Vec<bool>,
    /// The first task that is neither, or how many tasks there are.
    next: TaskId,
    seats: Vec<Seat>,
    /// Whether the task has a blocking scope open.
    scopes: Vec<bool>,
    jobs: Vec<JobMark>,
    phase: Phase,
    /// How many entries were made.
    entries: Place,
}

impl Books {
    /// The books of a script's open plan, before anything is done. The error is out of memory.
    pub(crate) fn open(alloc: Global, script: Script) -> Result<Books, AllocError>
        requires { IsSound script }
        ensures plan { IfOk result (λ books. books.script ≡ script) }
        ensures stands { IfOk result (λ books. StandFor (opened script) [] books) }
    {
        let kept = kept_tasks(alloc, script.tasks.as_slice())?;
        let seats = fresh_seats(alloc, script.workers as usize + 1)?;
        let posted = no_marks(alloc, script.tasks.len())?;
        let scopes = no_marks(alloc, script.tasks.len())?;
        let jobs = fresh_jobs(alloc, script.jobs.len())?;
        let next = first_unmarked(kept.as_slice(), posted.as_slice(), 0);
        Ok(Books {
            script,
            kept,
            posted,
            next,
            seats,
            scopes,
            jobs,
            phase: Phase::Running,
            entries: 0,
        })
    }

    /// The script whose open plan it is.
    pub(crate) fn script(&self) -> &Script
        ensures { result.now ≡ self.now.script }
    {
        &self.script
    }

    /// How many entries were made.
    pub(crate) fn entries(&self) -> Place
        ensures { result ≡ self.now.entries }
    {
        self.entries
    }

    /// Whether shutdown is done.
    pub(crate) fn is_done(&self) -> bool
        ensures { result ≡ is_done self.now.phase }
    {
        matches!(self.phase, Phase::Done)
    }

    /// The task that is handed out next, if one is left.
    pub(crate) fn spare_task(&self) -> Option<TaskId>
        requires { (plan : Plan) × (past : List Entry) × StandFor plan past self.now }
        ensures { (plan : Plan) (past : List Entry) → StandFor plan past self.now → result ≡ spare_task plan past }
    {
        if (self.next as usize) < self.kept.len() {
            Some(self.next)
        } else {
            None
        }
    }

    /// The task that a post is of: the one that it names, or else the one that is handed out next, if one is left.
    pub(crate) fn task_of(&self, named: Option<TaskId>) -> Option<TaskId>
        requires { (plan : Plan) × (past : List Entry) × StandFor plan past self.now }
        ensures { (plan : Plan) (past : List Entry) → StandFor plan past self.now → result ≡ task_of plan past named }
    {
        match named {
            Some(task) => Some(task),
            None => self.spare_task(),
        }
    }

    /// Whether there is no room for the entry of a call.
    pub(crate) fn is_full(&self, call: Call) -> bool
        requires { (plan : Plan) × (past : List Entry) × StandFor plan past self.now }
        ensures { (plan : Plan) (past : List Entry) → StandFor plan past self.now → result ≡ is_full plan past call }
    {
        if self.entries == MOST_ENTRIES {
            return true;
        }
        match call {
            Call::Post { task: None, .. } | Call::Main { task: None, .. } => self
                .spare_task()
                .is_none(),
            _ => false,
        }
    }

    /// An entry is made.
    pub(crate) fn enter(&mut self, seat: SeatNo, kind: Kind)
        requires { (plan : Plan) × (past : List Entry) × CanEnter plan past self.old seat kind }
        ensures script { self.new.script ≡ self.old.script }
        ensures stands { (plan : Plan) (past : List Entry) → CanEnter plan past self.old seat kind → StandFor plan (next past seat kind) self.new }
    {
        let at = seat as usize;
        self.seats[at] = self.seats[at].after(kind);
        mark_scope(&mut self.scopes, kind);
        mark_job(&mut self.jobs, kind);
        self.phase = phase_after(self.phase, kind);
        mark_task(&mut self.posted, kind);
        self.next = first_unmarked(self.kept.as_slice(), self.posted.as_slice(), self.next);
        self.entries += 1;
    }
}

impl Seat {
    /// Whether the seat runs no task and holds no item.
    fn is_idle(&self) -> bool
        ensures { result ≡ is_idle self.now }
    {
        self.runs.is_none() && self.holds.is_none()
    }

    // What the seat does after an entry of its own.
    fn after(self, kind: Kind) -> Seat
        ensures { result ≡ record { runs = runs_after self.runs kind; holds = holds_after self.holds kind } }
    {
        Seat {
            runs: runs_after(self.runs, kind),
            holds: holds_after(self.holds, kind),
        }
    }
}

fn runs_after(now: Option<Work>, kind: Kind) -> Option<Work>
    ensures { result ≡ runs_after now kind }
{
    match kind {
        Kind::Take {
            task,
            runner,
            found,
        } => Some(Work {
            task,
            home: runner,
            found,
            is_main: false,
        }),
        Kind::MainTake { task, queue, found } => Some(Work {
            task,
            home: queue,
            found,
            is_main: true,
        }),
        Kind::End { .. } | Kind::MainEnd { .. } => None,
        _ => now,
    }
}

fn holds_after(now: Option<Item>, kind: Kind) -> Option<Item>
    ensures { result ≡ holds_after now kind }
{
    match kind {
        Kind::JobTake { job, id, item } => Some(Item { job, id, item }),
        Kind::JobStep { job, id, next, .. } => Some(Item {
            job,
            id,
            item: next?,
        }),
        _ => now,
    }
}

// Notes the scopes that an entry opens or closes.
fn mark_scope(scopes: &mut Vec<bool>, kind: Kind)
    requires { NamesScope (length scopes.old.items) kind }
    ensures { scopes.new.items ≡ scopes_after scopes.old.items kind }
{
    match kind {
        Kind::Enter { task, .. } => scopes[task as usize] = true,
        Kind::Leave { task } => scopes[task as usize] = false,
        _ => {}
    }
}

// Notes the job that an entry posts or cancels.
fn mark_job(jobs: &mut Vec<JobMark>, kind: Kind)
    requires { NamesJob (length jobs.old.items) kind }
    ensures { jobs.new.items ≡ jobs_after jobs.old.items kind }
{
    match kind {
        Kind::JobPost { job, .. } => jobs[job as usize].posted = true,
        Kind::JobCancel { job } => jobs[job as usize].cancelled = true,
        _ => {}
    }
}

fn phase_after(now: Phase, kind: Kind) -> Phase
    ensures { result ≡ phase_after now kind }
{
    match (kind, now) {
        (Kind::Shutdown, Phase::Running) => Phase::Started,
        (Kind::Done, _) => Phase::Done,
        _ => now,
    }
}

// Notes the task that an entry posts.
fn mark_task(posted: &mut Vec<bool>, kind: Kind)
    requires { NamesTask (length posted.old.items) kind }
    ensures { posted.new.items ≡ posted_after posted.old.items kind }
{
    match kind {
        Kind::Post { task, .. } | Kind::Main { task, .. } => posted[task as usize] = true,
        _ => {}
    }
}
