ghost use Rattle.std.specs.Prelude.{◌≡◌, ℕ, Bool, not};
ghost use Rattle.task_base.specs.declared.entry.JobReply.{JobReply};
ghost use Rattle.env_core.specs.Calls.{IsWantedNext};
ghost use Rattle.env_core.specs.Jobs.{CanEndItem, JobTakeGives, StepGives, TriesToCancel, TriesToJoin};
ghost use Rattle.env_core.specs.Views.{Enters};
ghost use Rattle.task_model.specs.Refusal.{is_job_forbidden};

use crate::agenda::Shift;
use crate::env::Env;
use task_base::{JobId, JobReply, Kind, NotYet, SeatNo};
use task_body::{JobPass, TaskBody};

// Jobs: the driver posts, joins and cancels them, and seats inside end their items.
impl<B: TaskBody> Env<B> {
    /// The driver posts a job. False where the post is refused.
    pub fn job_post(&mut self, seat: SeatNo, job: JobId) -> bool
        requires { (ok : Bool) → IsWantedNext self.old seat (Kind.JobPost job ok) }
        ensures reply { result ≡ not (is_job_forbidden self.old.script self.old.history job) }
        ensures enters { Enters self.old self.new seat (Kind.JobPost job result) }
    {
        let ok = self.pool.job_post(self.ledger.len(), job);
        self.ledger
            .enter(seat, Kind::JobPost { job, ok }, Shift::Counts);
        ok
    }

    /// The driver, inside a join and with no item, goes into the job where it may. Policy and limits don't bind it.
    pub fn job_take(&mut self, seat: SeatNo, job: JobId) -> Option<JobPass>
        requires { (id item : ℕ) → IsWantedNext self.old seat (Kind.JobTake job id item) }
        ensures { JobTakeGives self.old self.new seat job result }
    {
        let (id, item) = self.pool.job_take(job)?;
        self.ledger
            .enter(seat, Kind::JobTake { job, id, item }, Shift::Stays);
        Some(JobPass::new(job, id, item))
    }

    /// A seat inside a job has ended its item with a value. It goes on with the item that is given, or has left.
    pub fn job_step(&mut self, seat: SeatNo, pass: JobPass, value: u64) -> Option<JobPass>
        requires { CanEndItem self.old seat pass value }
        ensures { StepGives self.old self.new seat pass value result }
    {
        let (job, id, item) = (pass.job(), pass.id(), pass.item());
        let next = self.pool.job_step(seat, value);
        self.ledger.enter(
            seat,
            Kind::JobStep {
                job,
                id,
                item,
                value,
                next,
            },
            Shift::Stays,
        );
        Some(JobPass::new(job, id, next?))
    }

    /// The driver cancels a job: nobody goes in any more, and who is inside leaves at the end of its item.
    pub fn job_cancel(&mut self, seat: SeatNo, job: JobId)
        requires { IsWantedNext self.old seat (Kind.JobCancel job) }
        ensures { Enters self.old self.new seat (Kind.JobCancel job) }
    {
        self.pool.job_cancel(job);
        self.ledger
            .enter(seat, Kind::JobCancel { job }, Shift::Counts);
    }

    /// The driver waits for a job that it has cancelled: it goes on where nobody is inside. The error says how many are.
    pub fn try_cancelled(&mut self, seat: SeatNo, job: JobId) -> Result<(), NotYet>
        requires { IsWantedNext self.old seat (Kind.Cancelled job) }
        ensures { TriesToCancel self.old self.new seat job result }
    {
        self.pool.cancelled(job)?;
        self.ledger
            .enter(seat, Kind::Cancelled { job }, Shift::Counts);
        Ok(())
    }

    /// The driver waits for a job that it joins: it goes on with the job's reply, where nobody is inside and there is one.
    /// The error says how many are inside, and whether the driver may go in.
    pub fn try_joined(&mut self, seat: SeatNo, job: JobId) -> Result<JobReply, NotYet>
        requires { (reply : JobReply) → IsWantedNext self.old seat (Kind.Joined job reply) }
        ensures { TriesToJoin self.old self.new seat job result }
    {
        let reply = self.pool.joined(job)?;
        self.ledger
            .enter(seat, Kind::Joined { job, reply }, Shift::Counts);
        Ok(reply)
    }
}
