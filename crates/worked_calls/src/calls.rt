//! Calls on one environment, with the answers that a test wants.
ghost use Rattle.std.specs.Prelude.{◌≡◌, ℕ, Bool, true, IfOk, None, Some};
ghost use Rattle.script_model.specs.Laws.Sound.{IsSound};
ghost use Rattle.env_core.specs.Calls.{IsFreeWorker, IsWantedNext};
ghost use Rattle.env_core.specs.Jobs.{CanEndItem};
ghost use Rattle.task_base.specs.Plan.{Plan};
ghost use Rattle.task_base.specs.declared.entry.Kind.TheVariants as kinds;
ghost use Rattle.worked_calls.specs.Known.{IsLast, IsLastMain, IsWork, at_start, with_entry};
ghost use Rattle.worked_calls.specs.Plans.{late_plan};

use crate::bodies::{CountedBody, Word, bodies_of};
use env_core::Env;
use std::alloc::{AllocError, Global};
use std::process::Abort;
use std::sync::Arc;
use std::sync::atomic::AtomicU64;
use task_base::{JobId, Script, SeatNo, TaskId};
use task_body::{Act, Assignment, JobPass, Taken};

/// The environment of a script, whose bodies share the word.
pub fn open_with(alloc: Global, script: Script, word: &Word) -> Result<Env<CountedBody>, AllocError>
    requires { IsSound script }
    ensures { IfOk result (λ env. env ≡ at_start script) }
{
    let bodies = bodies_of(alloc, &script, word)?;
    Env::open(alloc, script, bodies)
}

/// The environment of a script.
pub fn open(alloc: Global, script: Script) -> Result<Env<CountedBody>, AllocError>
    requires { IsSound script }
    ensures { IfOk result (λ env. env ≡ at_start script) }
{
    let word = Arc::new(alloc, AtomicU64::new(0))?;
    open_with(alloc, script, &word)
}

/// The driver posts this task to the first runner, which lets it in.
pub fn post(rt: &impl Abort, env: &mut Env<CountedBody>, task: TaskId)
    requires { (ok : Bool) → IsWantedNext env.old 0 (kinds.Post task 0 0 ok) }
    ensures { env.new ≡ with_entry env.old 0 (kinds.Post task 0 0 true) }
{
    assert!(rt; env.post(0, task, 0, 0));
}

/// The driver reads the clock, which is at this moment.
pub fn tick(rt: &impl Abort, env: &mut Env<CountedBody>, moment: u64)
    requires { (now : ℕ) → IsWantedNext env.old 0 (kinds.Tick now) }
    ensures { env.new ≡ with_entry env.old 0 (kinds.Tick moment) }
{
    assert!(rt; env.tick(0, moment) == moment);
}

/// A worker takes this task, which was posted to the first runner and finds nothing.
pub fn take(
    rt: &impl Abort,
    env: &mut Env<CountedBody>,
    seat: SeatNo,
    task: TaskId,
) -> Assignment<CountedBody>
    requires { IsFreeWorker env.old seat }
    ensures entered { env.new ≡ with_entry env.old seat (kinds.Take task 0 0) }
    ensures work { IsWork env.old.script task result }
{
    match env.take(seat) {
        Taken::Task(work) => {
            assert!(rt; work.task() == task);
            assert!(rt; work.home() == 0);
            assert!(rt; work.found() == 0);
            work
        }
        Taken::Item(_) | Taken::Nothing | Taken::Over => panic!(rt; "the worker gets no task"),
    }
}

/// A worker gets nothing now, and nothing is entered.
pub fn take_nothing(rt: &impl Abort, env: &mut Env<CountedBody>, seat: SeatNo)
    requires { IsFreeWorker env.old seat }
    ensures { env.new ≡ env.old }
{
    match env.take(seat) {
        Taken::Nothing => {}
        Taken::Item(_) | Taken::Over => panic!(rt; "the worker gets an item, or it is over"),
        Taken::Task(_work) => panic!(rt; "the worker gets a task"),
    }
}

/// A task does this step, which its seat enters if it is an act step.
pub fn step(rt: &impl Abort, work: &mut Assignment<CountedBody>, act: Act)
    ensures { (script : Plan) (task : ℕ) → IsWork script task work.old → IsWork script task work.new }
{
    assert_eq!(rt; work.step(), act);
}

/// A worker ends its task, which has no step left and leaves this value.
pub fn end(
    rt: &impl Abort,
    env: &mut Env<CountedBody>,
    seat: SeatNo,
    task: TaskId,
    mut work: Assignment<CountedBody>,
    left: u64,
)
    requires work { IsWork env.old.script task work }
    requires last { IsLast env.old seat task }
    ensures { env.new ≡ with_entry env.old seat (kinds.End task left) }
{
    let Act::Finished = work.step() else {
        panic!(rt; "the task has more steps")
    };
    assert!(rt; work.value() == left);
    let _ = env.end(seat, work);
}

/// The driver takes this task, which was posted to the first main queue and finds nothing.
pub fn take_main(
    rt: &impl Abort,
    env: &mut Env<CountedBody>,
    task: TaskId,
) -> Assignment<CountedBody>
    requires { IsWantedNext env.old 0 kinds.MainNone }
    ensures entered { env.new ≡ with_entry env.old 0 (kinds.MainTake task 0 0) }
    ensures work { IsWork env.old.script task result }
{
    let Some(work) = env.main_take(0) else {
        panic!(rt; "no front is open")
    };
    assert!(rt; work.task() == task);
    assert!(rt; work.home() == 0);
    assert!(rt; work.found() == 0);
    work
}

/// The driver ends its task, which has no step left and leaves this value.
pub fn end_main(
    rt: &impl Abort,
    env: &mut Env<CountedBody>,
    task: TaskId,
    mut work: Assignment<CountedBody>,
    left: u64,
)
    requires work { IsWork env.old.script task work }
    requires last { IsLastMain env.old task }
    ensures { env.new ≡ with_entry env.old 0 (kinds.MainEnd task left) }
{
    let Act::Finished = work.step() else {
        panic!(rt; "the task has more steps")
    };
    assert!(rt; work.value() == left);
    let _ = env.main_end(0, work);
}

/// The bodies of the three tasks that are in the drawer, and the cells of the runner and the main queue that are out.
pub fn assert_kept(rt: &impl Abort, env: &Env<CountedBody>, in_drawer: [bool; 3], out: [bool; 2])
    requires { env.now.script ≡ late_plan }
{
    assert_eq!(rt;
        [env.has_body(0), env.has_body(1), env.has_body(2)],
        in_drawer
    );
    assert_eq!(rt; [env.is_cell_out(0, 0), env.is_main_cell_out(0)], out);
}

/// The driver starts a job, which is let in.
pub fn start_job(rt: &impl Abort, env: &mut Env<CountedBody>, job: JobId)
    requires { (ok : Bool) → IsWantedNext env.old 0 (kinds.JobPost job ok) }
    ensures { env.new ≡ with_entry env.old 0 (kinds.JobPost job true) }
{
    assert!(rt; env.job_post(0, job));
}

/// A worker takes this item of the first job, under the number 0.
pub fn take_item(rt: &impl Abort, env: &mut Env<CountedBody>, seat: SeatNo, item: u32) -> JobPass
    requires { IsFreeWorker env.old seat }
    ensures entered { env.new ≡ with_entry env.old seat (kinds.JobTake 0 0 item) }
    ensures pass { result ≡ record { job = 0; id = 0; item = item } }
{
    match env.take(seat) {
        Taken::Item(pass) => {
            assert!(rt; pass.job() == 0);
            assert!(rt; pass.id() == 0);
            assert!(rt; pass.item() == item);
            pass
        }
        Taken::Task(_work) => panic!(rt; "the worker gets a task"),
        Taken::Nothing | Taken::Over => panic!(rt; "the worker gets nothing"),
    }
}

/// A seat ends its item and goes on with the next one.
pub fn go_on(
    rt: &impl Abort,
    env: &mut Env<CountedBody>,
    seat: SeatNo,
    pass: JobPass,
    value: u64,
    next: u32,
) -> JobPass
    requires { CanEndItem env.old seat pass value }
    ensures entered { env.new ≡ with_entry env.old seat (kinds.JobStep pass.job pass.id pass.item value (Some next)) }
    ensures pass { result ≡ record pass { item = next } }
{
    let Some(kept) = env.job_step(seat, pass, value) else {
        panic!(rt; "the seat leaves")
    };
    assert!(rt; kept.item() == next);
    kept
}

/// A seat ends its item and leaves the job.
pub fn leave(rt: &impl Abort, env: &mut Env<CountedBody>, seat: SeatNo, pass: JobPass, value: u64)
    requires { CanEndItem env.old seat pass value }
    ensures { env.new ≡ with_entry env.old seat (kinds.JobStep pass.job pass.id pass.item value None) }
{
    let None = env.job_step(seat, pass, value) else {
        panic!(rt; "the seat goes on")
    };
}

/// One seat is inside the job that was cancelled, and nothing is entered.
pub fn not_cancelled(rt: &impl Abort, env: &mut Env<CountedBody>, job: JobId)
    requires { IsWantedNext env.old 0 (kinds.Cancelled job) }
    ensures { env.new ≡ env.old }
{
    match env.try_cancelled(0, job) {
        Ok(()) => panic!(rt; "nobody is inside"),
        Err(not_yet) => assert!(rt; not_yet.running == 1 && !not_yet.ready),
    }
}
