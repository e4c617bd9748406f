ghost use Rattle.std.specs.Prelude.{List};
ghost use Rattle.task_base.specs.Plan.{Plan};
ghost use Rattle.task_base.specs.declared.entry.Entry.{Entry};
ghost use Rattle.live_core.specs.Making.{CanMake, Makes};

use crate::call::Call;
use crate::live::LiveCore;
use crate::unmade::Unmade;
use task_base::{FenceAt, Kind, LAST_MOMENT, Policy, Priority, QueueId, RunnerId};

// What the driver does to the pool and the main queues.
impl LiveCore {
    // The clock was read.
    pub(super) fn tick(&mut self, reading: u64) -> Result<Kind, Unmade>
        requires { (plan : Plan) × (past : List Entry) × CanMake plan past (Call.Tick reading) self.old }
        ensures { (plan : Plan) (past : List Entry) → CanMake plan past (Call.Tick reading) self.old → Makes plan past (Call.Tick reading) self.old self.new result }
    {
        let now = reading.max(self.pool.moment()).min(LAST_MOMENT);
        self.pool.tick(self.books.entries(), now);
        self.main.tick(now);
        Ok(Kind::Tick { now })
    }

    // Another policy is put in force.
    pub(super) fn policy(&mut self, policy: Policy) -> Result<Kind, Unmade>
        requires { (plan : Plan) × (past : List Entry) × CanMake plan past (Call.Policy policy) self.old }
        ensures { (plan : Plan) (past : List Entry) → CanMake plan past (Call.Policy policy) self.old → Makes plan past (Call.Policy policy) self.old self.new result }
    {
        self.pool.policy(policy);
        Ok(Kind::Policy { policy })
    }

    // A runner is given another priority.
    pub(super) fn reprio(&mut self, runner: RunnerId, priority: Priority) -> Result<Kind, Unmade>
        requires { (plan : Plan) × (past : List Entry) × CanMake plan past (Call.Reprio runner priority) self.old }
        ensures { (plan : Plan) (past : List Entry) → CanMake plan past (Call.Reprio runner priority) self.old → Makes plan past (Call.Reprio runner priority) self.old self.new result }
    {
        self.pool.reprio(runner, priority);
        Ok(Kind::Reprio { runner, priority })
    }

    // A main queue is given a fence.
    pub(super) fn fence(&mut self, queue: QueueId, at: FenceAt) -> Result<Kind, Unmade>
        requires { (plan : Plan) × (past : List Entry) × CanMake plan past (Call.Fence queue at) self.old }
        ensures { (plan : Plan) (past : List Entry) → CanMake plan past (Call.Fence queue at) self.old → Makes plan past (Call.Fence queue at) self.old self.new result }
    {
        self.main.fence(queue, at);
        Ok(Kind::Fence { queue, at })
    }

    // The fence of a main queue is removed.
    pub(super) fn unfence(&mut self, queue: QueueId) -> Result<Kind, Unmade>
        requires { (plan : Plan) × (past : List Entry) × CanMake plan past (Call.Unfence queue) self.old }
        ensures { (plan : Plan) (past : List Entry) → CanMake plan past (Call.Unfence queue) self.old → Makes plan past (Call.Unfence queue) self.old self.new result }
    {
        self.main.unfence(queue);
        Ok(Kind::Unfence { queue })
    }

    // A voter of a main queue votes.
    pub(super) fn vote(&mut self, queue: QueueId, voter: u8, on: bool) -> Result<Kind, Unmade>
        requires { (plan : Plan) × (past : List Entry) × CanMake plan past (Call.Vote queue voter on) self.old }
        ensures { (plan : Plan) (past : List Entry) → CanMake plan past (Call.Vote queue voter on) self.old → Makes plan past (Call.Vote queue voter on) self.old self.new result }
    {
        self.main.vote(queue, voter, on);
        Ok(Kind::Vote { queue, voter, on })
    }

    // A main queue is put in another class.
    pub(super) fn rank(&mut self, queue: QueueId, class: u8) -> Result<Kind, Unmade>
        requires { (plan : Plan) × (past : List Entry) × CanMake plan past (Call.Rank queue class) self.old }
        ensures { (plan : Plan) (past : List Entry) → CanMake plan past (Call.Rank queue class) self.old → Makes plan past (Call.Rank queue class) self.old self.new result }
    {
        self.main.rank(queue, class);
        Ok(Kind::Rank { queue, class })
    }

    // A main queue is closed.
    pub(super) fn close_queue(&mut self, queue: QueueId) -> Result<Kind, Unmade>
        requires { (plan : Plan) × (past : List Entry) × CanMake plan past (Call.Close queue) self.old }
        ensures { (plan : Plan) (past : List Entry) → CanMake plan past (Call.Close queue) self.old → Makes plan past (Call.Close queue) self.old self.new result }
    {
        self.main.close(queue);
        Ok(Kind::Close { queue })
    }

    // Whether the pool has nothing to do.
    pub(super) fn try_idle(&mut self) -> Result<Kind, Unmade>
        requires { (plan : Plan) × (past : List Entry) × CanMake plan past Call.Idle self.old }
        ensures { (plan : Plan) (past : List Entry) → CanMake plan past Call.Idle self.old → Makes plan past Call.Idle self.old self.new result }
    {
        match self.pool.idle() {
            Ok(()) => Ok(Kind::Idle),
            Err(not_yet) => Err(Unmade::NotYet(not_yet)),
        }
    }

    // Shutdown is started.
    pub(super) fn start_shutdown(&mut self) -> Result<Kind, Unmade>
        requires { (plan : Plan) × (past : List Entry) × CanMake plan past Call.Shutdown self.old }
        ensures { (plan : Plan) (past : List Entry) → CanMake plan past Call.Shutdown self.old → Makes plan past Call.Shutdown self.old self.new result }
    {
        self.pool.start_shutdown();
        Ok(Kind::Shutdown)
    }

    // Shutdown is ended, where nothing blocks it.
    pub(super) fn try_done(&mut self) -> Result<Kind, Unmade>
        requires { (plan : Plan) × (past : List Entry) × CanMake plan past Call.Done self.old }
        ensures { (plan : Plan) (past : List Entry) → CanMake plan past Call.Done self.old → Makes plan past Call.Done self.old self.new result }
    {
        match self.pool.try_done() {
            Ok(()) => Ok(Kind::Done),
            Err(blocked) => Err(Unmade::Blocked(blocked)),
        }
    }
}
