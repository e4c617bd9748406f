ghost use Rattle.std.specs.Prelude.{◌≡◌, ℕ, ◌≤◌, List, [], ◌∷◌, true, Option};
ghost use Rattle.task_base.specs.declared.script.Action.{Action};
ghost use Rattle.task_base.specs.declared.script.Action.TheVariants as actions;
ghost use Rattle.task_model.specs.Seats.{is_free};
ghost use Rattle.hist_model.specs.Script.{is_finished};
ghost use Rattle.script_model.specs.Laws.Sound.{IsActionSound, IsSound};
ghost use Rattle.env_crew.specs.Desk.{IsLater, mine};
ghost use Rattle.env_crew.specs.Driving.{AllFree, HasDone, AreLeft, KeepsTime, SameDesks};

use crate::desk::Desk;
use crate::steps::do_main_task;
use crate::waits::{finish_cancel, finish_shutdown, flush, join};
use env_io::{Clock, Gate};
use std::sync::Wait;
use task_base::{Action, Rows, Script};

/// Reads the clock so many times.
fn tick<D: Desk, C: Clock, R: Wait>(rt: &R, desk: &mut D, clock: &mut C, count: u32)
    requires driver { (D.desk desk.old).seat ≡ 0 }
    requires at { (rest : List Action) × AreLeft (D.desk desk.old) (actions.Tick count ∷ rest) [] }
    requires rests { is_free (mine (D.desk desk.old)) 0 ≡ true }
    ensures { HasDone (actions.Tick count) (D.desk desk.old) (D.desk desk.new) (C.readings clock.old) (C.readings clock.new) }
{
    for _ in 0..count {
        desk.tick(rt, clock.now());
    }
}

/// Runs main tasks to their ends, one after the other, until so many were run or no front is open.
fn pump<D: Desk, R: Wait>(rt: &R, desk: &mut D, count: u32)
    requires driver { (D.desk desk.old).seat ≡ 0 }
    requires some { 1 ≤ count }
    requires at { (rest : List Action) × AreLeft (D.desk desk.old) (actions.Pump count ∷ rest) [] }
    requires rests { is_free (mine (D.desk desk.old)) 0 ≡ true }
    ensures { (clock : ℕ → Option ℕ) → HasDone (actions.Pump count) (D.desk desk.old) (D.desk desk.new) clock clock }
{
    for _ in 0..count {
        match desk.main_take(rt) {
            Some(work) => {
                let work = do_main_task(rt, desk, work);
                desk.main_end(rt, work);
            }
            None => return,
        }
    }
}

/// Does the driver's next action. While it waits, the spare desks are served.
fn perform<D: Desk, C: Clock, G: Gate, R: Wait>(
    rt: &R,
    desk: &mut D,
    spare: &mut Rows<D>,
    action: Action,
    clock: &mut C,
    gate: &G,
)
    requires driver { (D.desk desk.old).seat ≡ 0 }
    requires sound { IsActionSound (D.desk desk.old).script action }
    requires at { (rest : List Action) × AreLeft (D.desk desk.old) (action ∷ rest) [] }
    requires rests { is_free (mine (D.desk desk.old)) 0 ≡ true }
    requires free { AllFree D.desk spare.old.items }
    ensures done { HasDone action (D.desk desk.old) (D.desk desk.new) (C.readings clock.old) (C.readings clock.new) }
    ensures free { AllFree D.desk spare.new.items }
    ensures same { SameDesks D.desk spare.old.items spare.new.items }
{
    match action {
        Action::Post {
            task,
            runner,
            delay,
        } => {
            desk.post(rt, task, runner, delay);
        }
        Action::Main { task, queue, delay } => {
            desk.main_post(rt, task, queue, delay);
        }
        Action::Tick { count } => tick(rt, desk, clock, count),
        Action::Policy { policy } => desk.policy(rt, policy),
        Action::Reprio { runner, priority } => desk.reprio(rt, runner, priority),
        Action::Fence { queue, at } => desk.fence(rt, queue, at),
        Action::Unfence { queue } => desk.unfence(rt, queue),
        Action::Vote { queue, voter, on } => desk.vote(rt, queue, voter, on),
        Action::Rank { queue, class } => desk.rank(rt, queue, class),
        Action::Close { queue } => desk.close_queue(rt, queue),
        Action::Pump { count } => pump(rt, desk, count),
        Action::Flush => flush(rt, desk, spare, gate),
        Action::Shutdown => {
            desk.start_shutdown(rt);
            finish_shutdown(rt, desk, spare, gate);
        }
        Action::StartJob { job } => {
            desk.job_post(rt, job);
        }
        Action::Join { job } => join(rt, desk, spare, job, gate),
        Action::Cancel { job } => {
            desk.job_cancel(rt, job);
            finish_cancel(rt, desk, spare, job, gate);
        }
    }
}

/// Performs a script from its start, at the driver's desk. While an action waits, it serves the spare desks,
/// each once in a round, and then waits a little: those are the desks of workers that got no thread of their own. Where
/// there are none, and it has waited for long, it sleeps until it is woken. Each tick reads the clock once.
pub fn drive<D: Desk, C: Clock, G: Gate, R: Wait>(
    rt: &R,
    desk: &mut D,
    spare: &mut Rows<D>,
    script: &Script,
    clock: &mut C,
    gate: &G,
)
    requires plan { IsSound script.now }
    requires script { (D.desk desk.old).script ≡ script.now }
    requires driver { (D.desk desk.old).seat ≡ 0 }
    requires start { mine (D.desk desk.old) ≡ [] }
    requires free { AllFree D.desk spare.old.items }
    ensures later { IsLater (D.desk desk.old) (D.desk desk.new) }
    ensures finished { is_finished (D.desk desk.new).script (D.desk desk.new).seen ≡ true }
    ensures rests { is_free (mine (D.desk desk.new)) 0 ≡ true }
    ensures time { KeepsTime (C.readings clock.old) (C.readings clock.new) (mine (D.desk desk.new)) }
    ensures free { AllFree D.desk spare.new.items }
    ensures same { SameDesks D.desk spare.old.items spare.new.items }
{
    for action in script.actions.as_slice() {
        perform(rt, desk, spare, *action, clock, gate);
    }
}
