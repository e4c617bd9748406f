ghost use Rattle.std.specs.Prelude.{List};
ghost use Rattle.task_base.specs.Plan.{Plan};
ghost use Rattle.task_base.specs.declared.entry.Entry.{Entry};
ghost use Rattle.live_core.specs.Making.{CanMake, Makes};

use crate::call::Call;
use crate::live::LiveCore;
use crate::unmade::Unmade;
use task_base::{Kind, QueueId, RunnerId, SeatNo, TaskId};

// Posts, each of the task that it names, or of the one that is handed out next.
impl LiveCore {
    // A task is posted to a runner.
    pub(super) fn post(
        &mut self,
        seat: SeatNo,
        named: Option<TaskId>,
        runner: RunnerId,
        delay: u64,
    ) -> Result<Kind, Unmade>
        requires { (plan : Plan) × (past : List Entry) × CanMake plan past (Call.Post seat named runner delay) self.old }
        ensures { (plan : Plan) (past : List Entry) → CanMake plan past (Call.Post seat named runner delay) self.old → Makes plan past (Call.Post seat named runner delay) self.old self.new result }
    {
        let task = self.books.task_of(named).unwrap();
        let ok = self.pool.post(self.books.entries(), task, runner, delay);
        Ok(Kind::Post {
            task,
            runner,
            delay,
            ok,
        })
    }

    // A task is posted to a main queue.
    pub(super) fn main_post(
        &mut self,
        seat: SeatNo,
        named: Option<TaskId>,
        queue: QueueId,
        delay: u64,
    ) -> Result<Kind, Unmade>
        requires { (plan : Plan) × (past : List Entry) × CanMake plan past (Call.Main seat named queue delay) self.old }
        ensures { (plan : Plan) (past : List Entry) → CanMake plan past (Call.Main seat named queue delay) self.old → Makes plan past (Call.Main seat named queue delay) self.old self.new result }
    {
        let task = self.books.task_of(named).unwrap();
        let ok = self.main.post(self.books.entries(), task, queue, delay);
        Ok(Kind::Main {
            task,
            queue,
            delay,
            ok,
        })
    }
}
