ghost use Rattle.std.specs.Prelude.{◌≡◌};
ghost use Rattle.env_crew.specs.Tasks.{HasDoneSteps, IsUnderWay};

use crate::assigned::Assigned;
use crate::desk::Desk;
use env_io::Gate;
use std::sync::Wait;
use task_base::{SeatNo, TaskId};
use task_body::Act;

/// Shows that a worker has passed the gate with a task.
///
/// `pass_gate` alone makes one, and `do_pool_task` alone spends it: it can be neither dropped nor copied. So no task of the pool
/// begins that has not passed, and none passes that does not begin.
pub(crate) struct Passed {
    seat: SeatNo,
    task: TaskId,
}

/// The worker of a seat passes the gate with a task that it has taken.
pub(crate) fn pass_gate<G: Gate>(gate: &G, seat: SeatNo, task: TaskId) -> Passed
    ensures seat { result.seat ≡ seat }
    ensures task { result.task ≡ task }
{
    gate.before(seat, task);
    Passed { seat, task }
}

/// Does all steps of a task of the pool, with which its worker has passed the gate.
pub(crate) fn do_pool_task<D: Desk, R: Wait>(
    rt: &R,
    desk: &mut D,
    passed: Passed,
    work: D::Work,
) -> D::Work
    requires taken { IsUnderWay (D.desk desk.old) (D.Work.work work) }
    requires seat { passed.seat ≡ (D.desk desk.old).seat }
    requires task { passed.task ≡ (D.Work.work work).task }
    ensures { HasDoneSteps (D.desk desk.old) (D.desk desk.new) (D.Work.work work) (D.Work.work result) }
{
    let Passed { seat: _, task: _ } = passed;
    do_steps(rt, desk, work)
}

/// Does all steps of a main task, which passes no gate.
pub(crate) fn do_main_task<D: Desk, R: Wait>(rt: &R, desk: &mut D, work: D::Work) -> D::Work
    requires taken { IsUnderWay (D.desk desk.old) (D.Work.work work) }
    requires driver { (D.desk desk.old).seat ≡ 0 }
    ensures { HasDoneSteps (D.desk desk.old) (D.desk desk.new) (D.Work.work work) (D.Work.work result) }
{
    do_steps(rt, desk, work)
}

// Does all steps of a task that the seat has taken. Each act step is entered before the next step is done.
fn do_steps<D: Desk, R: Wait>(rt: &R, desk: &mut D, mut work: D::Work) -> D::Work
    requires { IsUnderWay (D.desk desk.old) (D.Work.work work) }
    ensures { HasDoneSteps (D.desk desk.old) (D.desk desk.new) (D.Work.work work) (D.Work.work result) }
{
    loop {
        match work.step() {
            Act::Did(_) => {}
            Act::Finished => return work,
            act => {
                desk.act(rt, act);
            }
        }
    }
}
