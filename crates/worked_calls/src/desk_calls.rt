//! Calls at a desk, with the answers that a test wants.
ghost use Rattle.std.specs.Prelude.{◌≡◌, ℕ, true, IfOk};
ghost use Rattle.script_model.specs.Laws.Sound.{IsSound};
ghost use Rattle.task_base.specs.declared.entry.Kind.TheVariants as kinds;
ghost use Rattle.hist_model.specs.Legal.{IsLegal};
ghost use Rattle.env_core.specs.Calls.{IsNextAct};
ghost use Rattle.env_crew.specs.Desk.{IsLater, as_seen, mine, with_own};
ghost use Rattle.env_crew.specs.Driving.{IsWanted};
ghost use Rattle.env_crew.specs.Serving.{IsFree};
ghost use Rattle.env_shared.specs.Sits.{desk_of};
ghost use Rattle.worked_calls.specs.Known.{IsBack, IsLast, IsOf, IsWork, driver_seat, worker_seat};

use crate::bodies::{CountedBody, bodies_of};
use env_crew::{Desk, Served, serve};
use env_io::OpenGate;
use env_shared::{EnvSeat, Shared, SharedDesk};
use std::alloc::{AllocError, Global};
use std::process::Abort;
use std::sync::atomic::AtomicU64;
use std::sync::{Arc, Wait};
use task_base::{Behaviour, Entry, Rows, Scope, Script, TaskId};
use task_body::{Act, Assignment, Taken};

/// The shared environment of a script, with the driver's seat.
fn open(
    alloc: Global,
    script: Script,
) -> Result<(Shared<CountedBody>, EnvSeat<CountedBody>), AllocError>
    requires { IsSound script }
    ensures script { IfOk result (λ made. made.0.basis ≡ script) }
    ensures seat { IfOk result (λ made. made.1 ≡ driver_seat made.0 1) }
{
    let word = Arc::new(alloc, AtomicU64::new(0))?;
    let bodies = bodies_of(alloc, &script, &word)?;
    Shared::open(alloc, script, bodies)
}

/// The shared environment of a script of one worker, with the driver's seat and the worker's.
pub fn open_two(
    alloc: Global,
    script: Script,
) -> Result<
    (
        Shared<CountedBody>,
        EnvSeat<CountedBody>,
        EnvSeat<CountedBody>,
    ),
    AllocError,
>
    requires sound { IsSound script }
    requires one { script.workers ≡ 1 }
    ensures script { IfOk result (λ made. made.0.basis ≡ script) }
    ensures first { IfOk result (λ made. made.1 ≡ driver_seat made.0 2) }
    ensures second { IfOk result (λ made. made.2 ≡ worker_seat made.0 1) }
{
    let (shared, first) = open(alloc, script)?;
    let (first, second) = shared.split(first);
    Ok((shared, first, second))
}

/// A shared environment of two workers, and the seats of the driver and of both workers.
pub type Three = (
    Shared<CountedBody>,
    EnvSeat<CountedBody>,
    EnvSeat<CountedBody>,
    EnvSeat<CountedBody>,
);

/// The shared environment of a script of two workers, with all its seats.
pub fn open_three(alloc: Global, script: Script) -> Result<Three, AllocError>
    requires sound { IsSound script }
    requires two { script.workers ≡ 2 }
    ensures script { IfOk result (λ made. made.0.basis ≡ script) }
    ensures first { IfOk result (λ made. made.1 ≡ driver_seat made.0 3) }
    ensures one { IfOk result (λ made. made.2 ≡ worker_seat made.0 1) }
    ensures two { IfOk result (λ made. made.3 ≡ worker_seat made.0 2) }
{
    let (shared, first) = open(alloc, script)?;
    let (first, one) = shared.split(first);
    let (first, two) = shared.split(first);
    Ok((shared, first, one, two))
}

/// Closes a shared environment of one worker, and gives its log.
pub fn log_of_two(
    alloc: Global,
    shared: Shared<CountedBody>,
    first: EnvSeat<CountedBody>,
    second: EnvSeat<CountedBody>,
) -> Result<Rows<Entry>, AllocError>
    requires first { IsBack shared 0 2 first }
    requires second { IsOf shared 1 second }
    ensures legal { IfOk result (λ log. IsLegal shared.basis log.items) }
{
    let rest = Rows::from_vec(vec![in alloc; second]?);
    let (env, _spent) = shared.close(first, rest);
    Ok(env.into_log())
}

/// Closes a shared environment of two workers, and gives its log.
pub fn log_of_three(
    alloc: Global,
    shared: Shared<CountedBody>,
    first: EnvSeat<CountedBody>,
    one: EnvSeat<CountedBody>,
    two: EnvSeat<CountedBody>,
) -> Result<Rows<Entry>, AllocError>
    requires first { IsBack shared 0 3 first }
    requires one { IsOf shared 1 one }
    requires two { IsOf shared 2 two }
    ensures legal { IfOk result (λ log. IsLegal shared.basis log.items) }
{
    let rest = Rows::from_vec(vec![in alloc; one, two]?);
    let (env, _spent) = shared.close(first, rest);
    Ok(env.into_log())
}

/// A worker takes this task, which was posted to the first runner and finds nothing.
#[tactic(auto, using(crate::proofs::Seated::taken_later, crate::proofs::Seated::taken_own))]
pub fn take<R: Wait + Abort>(
    rt: &R,
    desk: &mut SharedDesk<'_, CountedBody>,
    task: TaskId,
) -> Assignment<CountedBody>
    requires { IsFree (desk_of desk.old) }
    ensures later { IsLater (desk_of desk.old) (desk_of desk.new) }
    ensures own { mine (desk_of desk.new) ≡ with_own (desk_of desk.old) (kinds.Take task 0 0) }
    ensures work { IsWork desk.old.seat.of.basis task result }
{
    match desk.take(rt) {
        Taken::Task(work) => {
            assert!(rt; work.task() == task);
            assert!(rt; work.home() == 0);
            assert!(rt; work.found() == 0);
            work
        }
        Taken::Item(_) | Taken::Nothing | Taken::Over => panic!(rt; "the worker gets no task"),
    }
}

/// A task opens a scope.
pub fn enter<R: Wait + Abort>(rt: &R, desk: &mut SharedDesk<'_, CountedBody>, scope: Scope)
    requires { IsNextAct (as_seen (desk_of desk.old)) desk.old.seat.number (Act.Enter scope) }
    ensures later { IsLater (desk_of desk.old) (desk_of desk.new) }
    ensures own { (t : ℕ) × (mine (desk_of desk.new) ≡ with_own (desk_of desk.old) (kinds.Enter t scope)) }
{
    desk.act(rt, Act::Enter(scope));
}

/// A task closes its scope.
pub fn leave<R: Wait + Abort>(rt: &R, desk: &mut SharedDesk<'_, CountedBody>)
    requires { IsNextAct (as_seen (desk_of desk.old)) desk.old.seat.number Act.Leave }
    ensures later { IsLater (desk_of desk.old) (desk_of desk.new) }
    ensures own { (t : ℕ) × (mine (desk_of desk.new) ≡ with_own (desk_of desk.old) (kinds.Leave t)) }
{
    desk.act(rt, Act::Leave);
}

/// A worker ends its task, which has no step left and leaves this value.
pub fn end<R: Wait + Abort>(
    rt: &R,
    desk: &mut SharedDesk<'_, CountedBody>,
    task: TaskId,
    mut work: Assignment<CountedBody>,
    left: u64,
)
    requires work { IsWork desk.old.seat.of.basis task work }
    requires last { IsLast (as_seen (desk_of desk.old)) desk.old.seat.number task }
    ensures later { IsLater (desk_of desk.old) (desk_of desk.new) }
{
    let Act::Finished = work.step() else {
        panic!(rt; "the task has more steps")
    };
    assert!(rt; work.value() == left);
    desk.end(rt, work);
}

/// A worker is served, with this answer.
pub fn assert_served<R: Wait + Abort>(
    rt: &R,
    worker: &mut SharedDesk<'_, CountedBody>,
    wanted: Served,
)
    requires { IsFree (desk_of worker.old) }
    ensures free { IsFree (desk_of worker.new) }
    ensures later { IsLater (desk_of worker.old) (desk_of worker.new) }
{
    assert_eq!(rt; serve(rt, worker, &OpenGate), wanted);
}

/// A worker finds nothing, and rests.
#[tactic(auto, using(crate::proofs::Rests::nothing_free, crate::proofs::Rests::nothing_later))]
pub fn find_nothing<R: Wait + Abort>(rt: &R, worker: &mut SharedDesk<'_, CountedBody>)
    requires { IsFree (desk_of worker.old) }
    ensures rests { worker.new.rests ≡ true }
    ensures free { IsFree (desk_of worker.new) }
    ensures later { IsLater (desk_of worker.old) (desk_of worker.new) }
{
    match worker.take_or_rest(rt) {
        Taken::Nothing => {}
        Taken::Item(_) | Taken::Over => panic!(rt; "the worker gets an item, or it is over"),
        Taken::Task(_work) => panic!(rt; "the worker gets a task"),
    }
}

/// A worker that rests has been woken, so that its sleep ends at once, and does a task.
#[tactic(auto, using(crate::proofs::Rests::slept_free, crate::proofs::Rests::slept_later))]
pub fn serve_woken<R: Wait + Abort>(rt: &R, worker: &mut SharedDesk<'_, CountedBody>)
    requires rests { worker.old.rests ≡ true }
    requires free { IsFree (desk_of worker.old) }
    ensures free { IsFree (desk_of worker.new) }
    ensures later { IsLater (desk_of worker.old) (desk_of worker.new) }
{
    worker.sleep(rt);
    assert_served(rt, worker, Served::Worked);
}

/// The driver sees that the pool is idle.
#[tactic(auto, using(crate::proofs::Rests::idled_later, crate::proofs::Rests::idled_own))]
pub fn idle<R: Wait + Abort>(rt: &R, driver: &mut SharedDesk<'_, CountedBody>)
    requires { IsWanted (desk_of driver.old) kinds.Idle }
    ensures later { IsLater (desk_of driver.old) (desk_of driver.new) }
    ensures own { mine (desk_of driver.new) ≡ with_own (desk_of driver.old) kinds.Idle }
{
    let Ok(()) = driver.try_idle(rt) else {
        panic!(rt; "the pool is not idle")
    };
}

/// The driver rests while the pool is idle, so that its sleep ends at once, and sees that.
#[tactic(auto, using(crate::proofs::Rests::rested_later, crate::proofs::Rests::rested_own, crate::proofs::Rests::rested_wanted))]
pub fn idle_at_once<R: Wait + Abort>(rt: &R, driver: &mut SharedDesk<'_, CountedBody>)
    requires { IsWanted (desk_of driver.old) kinds.Idle }
    ensures later { IsLater (desk_of driver.old) (desk_of driver.new) }
    ensures own { mine (desk_of driver.new) ≡ with_own (desk_of driver.old) kinds.Idle }
{
    driver.rest(rt);
    driver.sleep(rt);
    idle(rt, driver);
}

/// A worker sees, without the turn, from which place on skip work is refused, or that it is not.
pub fn assert_shut(rt: &impl Abort, worker: &mut SharedDesk<'_, CountedBody>, wanted: Option<u64>)
    ensures of { worker.new.seat.of ≡ worker.old.seat.of }
    ensures number { worker.new.seat.number ≡ worker.old.seat.number }
{
    assert_eq!(rt; worker.shut_to(Behaviour::SkipOnShutdown), wanted);
}

/// It is told nothing of block work.
pub fn assert_block_untold(rt: &impl Abort, worker: &mut SharedDesk<'_, CountedBody>)
    ensures { worker.new ≡ worker.old }
{
    assert!(rt; worker.shut_to(Behaviour::BlockShutdown).is_none());
}
