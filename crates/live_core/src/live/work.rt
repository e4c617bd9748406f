ghost use Rattle.std.specs.Prelude.{◌≡◌, ◌==◌, ◌&&◌, ◌||◌, nat_le, nat_lt, List, length, is_some};
ghost use Rattle.task_base.specs.Plan.{Plan};
ghost use Rattle.task_base.specs.declared.entry.Entry.{Entry};
ghost use Rattle.task_model.specs.Jobs.{is_empty, may_enter};
ghost use Rattle.task_model.specs.Phase.{phase_of};
ghost use Rattle.task_model.specs.Seats.{is_quiet};
ghost use Rattle.task_model.specs.Sources.{best_of};
ghost use Rattle.hist_model.specs.Open.{is_done};
ghost use Rattle.pool_core.specs.Calls.{is_any_ready, is_own};
ghost use Rattle.pool_core.specs.JobCalls.{joined_of};
ghost use Rattle.live_core.specs.Calls.{fits};
ghost use Rattle.live_core.specs.StandsFor.{StandsFor};
ghost use Rattle.live_core.specs.Waits.{has_come};

use crate::call::Call;
use crate::live::LiveCore;
use task_base::{JobId, SeatNo};

// What a seat may wait for. These make no call.
impl LiveCore {
    /// Whether a call is one that its seat may make now, and names what is declared. Else it is a misuse.
    pub fn fits(&self, call: Call) -> bool
        requires { (plan : Plan) × (past : List Entry) × StandsFor plan past self.now }
        ensures { (plan : Plan) (past : List Entry) → StandsFor plan past self.now → result ≡ fits plan past call }
    {
        self.books.fits(call)
    }

    /// Whether shutdown is done.
    pub fn is_done(&self) -> bool
        ensures { (plan : Plan) (past : List Entry) → StandsFor plan past self.now → result ≡ is_done (phase_of past) }
    {
        self.books.is_done()
    }

    /// Whether nobody runs a task or holds an item: no worker, nor the driver.
    pub fn is_quiet(&self) -> bool
        ensures { (plan : Plan) (past : List Entry) → StandsFor plan past self.now → result ≡ is_quiet plan past }
    {
        self.books.is_quiet()
    }

    /// Whether there is a source that some worker may take now, be it at work or not.
    pub fn is_any_ready(&self) -> bool
        requires { (plan : Plan) × (past : List Entry) × StandsFor plan past self.now }
        ensures { (plan : Plan) (past : List Entry) → StandsFor plan past self.now → result ≡ is_any_ready plan past }
    {
        self.pool.is_any_ready()
    }

    /// Whether what a call asks for has come. True of calls that don't wait.
    pub fn has_come(&self, call: Call) -> bool
        requires { (plan : Plan) × (past : List Entry) × StandsFor plan past self.now }
        ensures { (plan : Plan) (past : List Entry) → StandsFor plan past self.now → result ≡ has_come plan past call }
    {
        match call {
            Call::Take { seat } => self.has_source(seat),
            Call::Cancelled { job } => self.is_left(job),
            Call::Joined { job } => self.is_joined(job),
            Call::Idle => self.pool.idle().is_ok(),
            Call::Done => self.pool.blockers() == 0,
            _ => true,
        }
    }

    /// Whether there is the seat, and the source that it may take now, and would get if it does nothing, is one that no other seat may.
    pub fn has_own_source(&self, seat: SeatNo) -> bool
        requires { (plan : Plan) × (past : List Entry) × StandsFor plan past self.now }
        ensures { (plan : Plan) (past : List Entry) → StandsFor plan past self.now
            → result ≡ (nat_le seat plan.workers && is_own (best_of plan past seat)) }
    {
        seat <= self.books.script().workers && self.pool.has_own_work(seat)
    }

    // Whether there is the seat, and a source that it may take.
    fn has_source(&self, seat: SeatNo) -> bool
        requires { (plan : Plan) × (past : List Entry) × StandsFor plan past self.now }
        ensures { (plan : Plan) (past : List Entry) → StandsFor plan past self.now
            → result ≡ (nat_le seat plan.workers && is_some (best_of plan past seat)) }
    {
        seat <= self.books.script().workers && self.pool.has_work(seat)
    }

    // Whether there is the job, and nobody is inside.
    fn is_left(&self, job: JobId) -> bool
        requires { (plan : Plan) × (past : List Entry) × StandsFor plan past self.now }
        ensures { (plan : Plan) (past : List Entry) → StandsFor plan past self.now
            → result ≡ (nat_lt job (length plan.jobs) && is_empty plan past job) }
    {
        self.has_job(job) && self.pool.cancelled(job).is_ok()
    }

    // Whether there is the job, and its reply is there, or the driver may go in.
    fn is_joined(&self, job: JobId) -> bool
        requires { (plan : Plan) × (past : List Entry) × StandsFor plan past self.now }
        ensures { (plan : Plan) (past : List Entry) → StandsFor plan past self.now
            → result ≡ (nat_lt job (length plan.jobs) && (may_enter plan past job || is_some (joined_of plan past job))) }
    {
        if !self.has_job(job) {
            return false;
        }
        match self.pool.joined(job) {
            Ok(_) => true,
            Err(not_yet) => not_yet.ready,
        }
    }

    // Whether there is the job.
    fn has_job(&self, job: JobId) -> bool
        ensures { (plan : Plan) (past : List Entry) → StandsFor plan past self.now → result ≡ nat_lt job (length plan.jobs) }
    {
        (job as usize) < self.books.script().jobs.len()
    }
}
