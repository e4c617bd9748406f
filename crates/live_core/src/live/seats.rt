ghost use Rattle.std.specs.Prelude.{List};
ghost use Rattle.task_base.specs.Plan.{Plan};
ghost use Rattle.task_base.specs.declared.entry.Entry.{Entry};
ghost use Rattle.live_core.specs.Making.{CanMake, Makes};

use crate::call::Call;
use crate::live::LiveCore;
use crate::live::main_tasks::left_by;
use crate::unmade::Unmade;
use pool_core::PoolTake;
use task_base::{Kind, Scope, SeatNo};

// What workers do: they take and end, and their tasks open and close scopes.
impl LiveCore {
    // A worker takes its best source.
    pub(super) fn take(&mut self, seat: SeatNo) -> Result<Kind, Unmade>
        requires { (plan : Plan) × (past : List Entry) × CanMake plan past (Call.Take seat) self.old }
        ensures { (plan : Plan) (past : List Entry) → CanMake plan past (Call.Take seat) self.old → Makes plan past (Call.Take seat) self.old self.new result }
    {
        if self.books.is_done() {
            return Err(Unmade::Over);
        }
        match self.pool.take(seat) {
            PoolTake::Nothing => Err(Unmade::Nothing),
            PoolTake::Item { job, id, item } => Ok(Kind::JobTake { job, id, item }),
            PoolTake::Task { task, runner, cell } => {
                let found = cell.value();
                self.cells[seat as usize] = Some(cell);
                Ok(Kind::Take {
                    task,
                    runner,
                    found,
                })
            }
        }
    }

    // A worker ends its task: the cell goes home with what the steps leave.
    pub(super) fn end(&mut self, seat: SeatNo) -> Result<Kind, Unmade>
        requires { (plan : Plan) × (past : List Entry) × CanMake plan past (Call.End seat) self.old }
        ensures { (plan : Plan) (past : List Entry) → CanMake plan past (Call.End seat) self.old → Makes plan past (Call.End seat) self.old self.new result }
    {
        let work = self.books.runs(seat).unwrap();
        let left = left_by(self.books.script(), work);
        let mut cell = self.cells[seat as usize].take().unwrap();
        cell.set(left);
        self.pool.end(seat, cell);
        Ok(Kind::End {
            task: work.task,
            left,
        })
    }

    // A task opens a scope.
    pub(super) fn enter_scope(&mut self, seat: SeatNo, scope: Scope) -> Result<Kind, Unmade>
        requires { (plan : Plan) × (past : List Entry) × CanMake plan past (Call.Enter seat scope) self.old }
        ensures { (plan : Plan) (past : List Entry) → CanMake plan past (Call.Enter seat scope) self.old → Makes plan past (Call.Enter seat scope) self.old self.new result }
    {
        let work = self.books.runs(seat).unwrap();
        self.pool.enter(seat, scope);
        Ok(Kind::Enter {
            task: work.task,
            scope,
        })
    }

    // A task closes its scope.
    pub(super) fn leave_scope(&mut self, seat: SeatNo) -> Result<Kind, Unmade>
        requires { (plan : Plan) × (past : List Entry) × CanMake plan past (Call.Leave seat) self.old }
        ensures { (plan : Plan) (past : List Entry) → CanMake plan past (Call.Leave seat) self.old → Makes plan past (Call.Leave seat) self.old self.new result }
    {
        let work = self.books.runs(seat).unwrap();
        self.pool.leave(seat);
        Ok(Kind::Leave { task: work.task })
    }
}
