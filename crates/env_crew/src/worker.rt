ghost use Rattle.std.specs.Prelude.{◌≡◌, ◌<◌, ◌&&◌, true};
ghost use Rattle.hist_model.specs.Script.{is_finished};
ghost use Rattle.env_crew.specs.Calls.{Gives, is_nothing};
ghost use Rattle.env_crew.specs.Desk.{AnswersWith, IsLater};
ghost use Rattle.env_crew.specs.Serving.{HasServed, IsFree};

use crate::assigned::Assigned;
use crate::desk::Desk;
use crate::items::do_items;
use crate::steps::{do_pool_task, pass_gate};
use env_io::Gate;
use std::sync::Wait;
use task_body::Taken;

/// What a worker did when it was served once.
#[derive(Clone, Copy, Debug, PartialEq, Eq)]
pub enum Served {
    /// It took a task and did all of its work, or worked on items of a job until it left.
    Worked,
    /// There was nothing that it might take.
    Nothing,
    /// There was nothing, and there will be nothing any more.
    Over,
}

/// Has a worker take a task and do all of its work, or go into a job and work on its items until it leaves: one round of
/// the loop of `worker_thread.h`. The gate is passed between the take of a task and the first step. It may wait at each of its calls, for the turn alone.
pub fn serve<D: Desk, G: Gate, R: Wait>(rt: &R, desk: &mut D, gate: &G) -> Served
    requires free { IsFree (D.desk desk.old) }
    ensures free { IsFree (D.desk desk.new) }
    ensures later { IsLater (D.desk desk.old) (D.desk desk.new) }
    ensures turned { (D.desk desk.old).turns < (D.desk desk.new).turns }
    ensures served { HasServed (D.desk desk.old) (D.desk desk.new) result }
{
    serve_or(rt, desk, gate, false)
}

// As `serve`. Where the worker may rest, and there is nothing, its seat is noted as one that rests.
fn serve_or<D: Desk, G: Gate, R: Wait>(rt: &R, desk: &mut D, gate: &G, may_rest: bool) -> Served
    requires free { IsFree (D.desk desk.old) }
    ensures free { IsFree (D.desk desk.new) }
    ensures later { IsLater (D.desk desk.old) (D.desk desk.new) }
    ensures turned { (D.desk desk.old).turns < (D.desk desk.new).turns }
    ensures served { HasServed (D.desk desk.old) (D.desk desk.new) result }
    ensures noted { result ≡ Served.Nothing → (D.desk desk.new).rests ≡ may_rest }
{
    match ask(rt, desk, may_rest) {
        Taken::Task(work) => {
            let passed = pass_gate(gate, desk.number(), work.task());
            let work = do_pool_task(rt, desk, passed, work);
            desk.end(rt, work);
        }
        Taken::Item(pass) => do_items(rt, desk, pass),
        Taken::Nothing => return Served::Nothing,
        Taken::Over => return Served::Over,
    }
    Served::Worked
}

// Asks for work. Where the worker may rest, and there is nothing, its seat is noted as one that rests.
fn ask<D: Desk, R: Wait>(rt: &R, desk: &mut D, may_rest: bool) -> Taken<D::Work>
    requires { IsFree (D.desk desk.old) }
    ensures { AnswersWith (may_rest && is_nothing result) (D.desk desk.old) (D.desk desk.new) (Gives D.Work.work (D.desk desk.old).seat result) }
{
    if may_rest {
        desk.take_or_rest(rt)
    } else {
        desk.take(rt)
    }
}

/// What a worker's thread does (`WorkerThread::RunWorker` of `worker_thread.h`): it serves until there will be nothing
/// any more. Where there is nothing for now it rests at once, and sleeps until it is woken.
pub fn work<D: Desk, G: Gate, R: Wait>(rt: &R, desk: &mut D, gate: &G)
    requires free { IsFree (D.desk desk.old) }
    ensures free { IsFree (D.desk desk.new) }
    ensures later { IsLater (D.desk desk.old) (D.desk desk.new) }
    ensures finished { is_finished (D.desk desk.new).script (D.desk desk.new).seen ≡ true }
{
    for _ in rt.forever() {
        match serve_or(rt, desk, gate, true) {
            Served::Worked => {}
            Served::Nothing => desk.sleep(rt),
            Served::Over => return,
        }
    }
    unreachable!()
}
