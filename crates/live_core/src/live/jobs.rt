ghost use Rattle.std.specs.Prelude.{List};
ghost use Rattle.task_base.specs.Plan.{Plan};
ghost use Rattle.task_base.specs.declared.entry.Entry.{Entry};
ghost use Rattle.live_core.specs.Making.{CanMake, Makes};

use crate::call::Call;
use crate::live::LiveCore;
use crate::unmade::Unmade;
use past_lookup::value_of;
use task_base::{JobId, Kind, SeatNo};

// Jobs: the driver posts, joins and cancels them, and seats inside end their items.
impl LiveCore {
    // A job is posted.
    pub(super) fn job_post(&mut self, job: JobId) -> Result<Kind, Unmade>
        requires { (plan : Plan) × (past : List Entry) × CanMake plan past (Call.JobPost job) self.old }
        ensures { (plan : Plan) (past : List Entry) → CanMake plan past (Call.JobPost job) self.old → Makes plan past (Call.JobPost job) self.old self.new result }
    {
        let ok = self.pool.job_post(self.books.entries(), job);
        Ok(Kind::JobPost { job, ok })
    }

    // The driver enters a job, where it may.
    pub(super) fn job_take(&mut self, job: JobId) -> Result<Kind, Unmade>
        requires { (plan : Plan) × (past : List Entry) × CanMake plan past (Call.JobTake job) self.old }
        ensures { (plan : Plan) (past : List Entry) → CanMake plan past (Call.JobTake job) self.old → Makes plan past (Call.JobTake job) self.old self.new result }
    {
        match self.pool.job_take(job) {
            Some((id, item)) => Ok(Kind::JobTake { job, id, item }),
            None => Err(Unmade::Nothing),
        }
    }

    // A seat ends its item, and goes on with another one or leaves.
    pub(super) fn job_step(&mut self, seat: SeatNo) -> Result<Kind, Unmade>
        requires { (plan : Plan) × (past : List Entry) × CanMake plan past (Call.JobStep seat) self.old }
        ensures { (plan : Plan) (past : List Entry) → CanMake plan past (Call.JobStep seat) self.old → Makes plan past (Call.JobStep seat) self.old self.new result }
    {
        let held = self.books.holds(seat).unwrap();
        let value = value_of(self.books.script(), held.job, held.item);
        let next = self.pool.job_step(seat, value);
        Ok(Kind::JobStep {
            job: held.job,
            id: held.id,
            item: held.item,
            value,
            next,
        })
    }

    // A job is cancelled.
    pub(super) fn job_cancel(&mut self, job: JobId) -> Result<Kind, Unmade>
        requires { (plan : Plan) × (past : List Entry) × CanMake plan past (Call.JobCancel job) self.old }
        ensures { (plan : Plan) (past : List Entry) → CanMake plan past (Call.JobCancel job) self.old → Makes plan past (Call.JobCancel job) self.old self.new result }
    {
        self.pool.job_cancel(job);
        Ok(Kind::JobCancel { job })
    }

    // Whether nobody is inside a job that was cancelled.
    pub(super) fn try_cancelled(&mut self, job: JobId) -> Result<Kind, Unmade>
        requires { (plan : Plan) × (past : List Entry) × CanMake plan past (Call.Cancelled job) self.old }
        ensures { (plan : Plan) (past : List Entry) → CanMake plan past (Call.Cancelled job) self.old → Makes plan past (Call.Cancelled job) self.old self.new result }
    {
        match self.pool.cancelled(job) {
            Ok(()) => Ok(Kind::Cancelled { job }),
            Err(not_yet) => Err(Unmade::NotYet(not_yet)),
        }
    }

    // The reply of a job, where there is one.
    pub(super) fn try_joined(&mut self, job: JobId) -> Result<Kind, Unmade>
        requires { (plan : Plan) × (past : List Entry) × CanMake plan past (Call.Joined job) self.old }
        ensures { (plan : Plan) (past : List Entry) → CanMake plan past (Call.Joined job) self.old → Makes plan past (Call.Joined job) self.old self.new result }
    {
        match self.pool.joined(job) {
            Ok(reply) => Ok(Kind::Joined { job, reply }),
            Err(not_yet) => Err(Unmade::NotYet(not_yet)),
        }
    }
}
