//! Lists of calls on one environment.
ghost use Rattle.std.specs.Prelude.{◌≡◌};
ghost use Rattle.task_base.specs.declared.step.Scope.TheVariants as scopes;
ghost use Rattle.worked_calls.specs.Known.{IsWork, at_start};
ghost use Rattle.worked_calls.specs.Jobs.{item_taken, job_done, yielded};
ghost use Rattle.worked_calls.specs.Plans.{yield_plan};
ghost use Rattle.worked_calls.specs.Scopes.{both_done, counted, entered, plan_of, short_done, taken};

use crate::bodies::CountedBody;
use crate::calls::{
    end, go_on, leave, not_cancelled, open, post, start_job, step, take, take_item, take_nothing,
    tick,
};
use crate::scripts::{cancelling, may, will, yielding};
use crate::texts::assert_log;
use env_core::Env;
use std::process::Abort;
use std::test::Fail;
use task_base::Scope;
use task_body::{Act, Assignment, JobPass};

/// The driver posts both tasks of a script with this scope, and a worker takes the first one.
fn take_long(rt: &impl Abort, env: &mut Env<CountedBody>, scope: Scope) -> Assignment<CountedBody>
    requires { env.old ≡ at_start (plan_of scope) }
    ensures env { env.new ≡ taken scope }
    ensures work { IsWork (plan_of scope) 0 result }
{
    post(rt, env, 0);
    post(rt, env, 1);
    take(rt, env, 1, 0)
}

/// The task opens its scope.
fn open_scope(
    rt: &impl Abort,
    env: &mut Env<CountedBody>,
    long: &mut Assignment<CountedBody>,
    scope: Scope,
)
    requires env { env.old ≡ taken scope }
    requires work { IsWork (plan_of scope) 0 long.old }
    ensures env { env.new ≡ entered scope }
    ensures work { IsWork (plan_of scope) 0 long.new }
{
    step(rt, long, Act::Enter(scope));
    env.act(1, Act::Enter(scope));
}

/// The scope does not count at 4, where another worker gets nothing, and counts at 5.
fn tick_on(rt: &impl Abort, env: &mut Env<CountedBody>)
    requires { env.old ≡ entered scopes.May }
    ensures { env.new ≡ counted scopes.May }
{
    tick(rt, env, 4);
    take_nothing(rt, env, 2);
    tick(rt, env, 5);
}

/// Another worker does the second task while the scope counts.
fn do_short(rt: &impl Abort, env: &mut Env<CountedBody>, scope: Scope)
    requires { env.old ≡ counted scope }
    ensures { env.new ≡ short_done scope }
{
    let mut short = take(rt, env, 2, 1);
    step(rt, &mut short, Act::Did(1));
    end(rt, env, 2, 1, short, 2);
}

/// The first task closes its scope, and ends.
fn end_long(
    rt: &impl Abort,
    env: &mut Env<CountedBody>,
    mut long: Assignment<CountedBody>,
    scope: Scope,
)
    requires env { env.old ≡ short_done scope }
    requires work { IsWork (plan_of scope) 0 long }
    ensures { env.new ≡ both_done scope }
{
    step(rt, &mut long, Act::Did(1));
    step(rt, &mut long, Act::Leave);
    env.act(1, Act::Leave);
    end(rt, env, 1, 0, long, 1);
}

#[test]
fn will_block(rt: HostRuntime) -> Result<(), Fail> {
    let script = will(rt.alloc())?;
    let mut env = open(rt.alloc(), script)?;
    let mut long = take_long(&rt, &mut env, Scope::Will);
    take_nothing(&rt, &mut env, 2);
    open_scope(&rt, &mut env, &mut long, Scope::Will);
    do_short(&rt, &mut env, Scope::Will);
    end_long(&rt, &mut env, long, Scope::Will);
    assert!(rt; env.try_idle(0).is_ok());
    assert_log(
        rt.alloc(),
        &env.into_log(),
        "0 0 post 0 0 0 ok\n1 0 post 1 0 0 ok\n2 1 take 0 0 0\n3 1 block 0 will\n\
        4 2 take 1 0 0\n5 2 end 1 2\n6 1 unblock 0\n7 1 end 0 1\n8 0 idle\n",
    )
}

#[test]
fn may_block(rt: HostRuntime) -> Result<(), Fail> {
    let script = may(rt.alloc())?;
    let mut env = open(rt.alloc(), script)?;
    let mut long = take_long(&rt, &mut env, Scope::May);
    open_scope(&rt, &mut env, &mut long, Scope::May);
    tick_on(&rt, &mut env);
    do_short(&rt, &mut env, Scope::May);
    end_long(&rt, &mut env, long, Scope::May);
    assert!(rt; env.try_idle(0).is_ok());
    assert_log(
        rt.alloc(),
        &env.into_log(),
        "0 0 post 0 0 0 ok\n1 0 post 1 0 0 ok\n2 1 take 0 0 0\n3 1 block 0 may\n\
        4 0 tick 4\n5 0 tick 5\n6 2 take 1 0 0\n7 2 end 1 2\n8 1 unblock 0\n9 1 end 0 1\n10 0 idle\n",
    )
}

/// A worker takes the job's first item, and the driver posts the task, which matters more.
fn take_first(rt: &impl Abort, env: &mut Env<CountedBody>) -> JobPass
    requires { env.old ≡ at_start yield_plan }
    ensures env { env.new ≡ item_taken }
    ensures pass { result ≡ record { job = 0; id = 0; item = 0 } }
{
    start_job(rt, env, 0);
    let pass = take_item(rt, env, 1, 0);
    post(rt, env, 0);
    pass
}

/// The worker leaves the job behind its item, and does the task.
fn yield_item(rt: &impl Abort, env: &mut Env<CountedBody>, pass: JobPass)
    requires env { env.old ≡ item_taken }
    requires pass { pass ≡ record { job = 0; id = 0; item = 0 } }
    ensures { env.new ≡ yielded }
{
    leave(rt, env, 1, pass, 1);
    let mut work = take(rt, env, 1, 0);
    step(rt, &mut work, Act::Did(1));
    end(rt, env, 1, 0, work, 1);
}

/// The worker goes into the job again, and does its other items.
fn do_items(rt: &impl Abort, env: &mut Env<CountedBody>)
    requires { env.old ≡ yielded }
    ensures { env.new ≡ job_done }
{
    let pass = take_item(rt, env, 1, 1);
    let pass = go_on(rt, env, 1, pass, 2, 2);
    leave(rt, env, 1, pass, 3);
}

#[test]
fn job_yields(rt: HostRuntime) -> Result<(), Fail> {
    let script = yielding(rt.alloc())?;
    let mut env = open(rt.alloc(), script)?;
    let pass = take_first(&rt, &mut env);
    yield_item(&rt, &mut env, pass);
    do_items(&rt, &mut env);
    assert!(rt; env.try_idle(0).is_ok());
    assert_log(
        rt.alloc(),
        &env.into_log(),
        "0 0 startjob 0 ok\n1 1 jobtake 0 0 0\n2 0 post 0 0 0 ok\n3 1 jobstep 0 0 0 1 -\n\
        4 1 take 0 0 0\n5 1 end 0 1\n6 1 jobtake 0 0 1\n7 1 jobstep 0 0 1 2 2\n\
        8 1 jobstep 0 0 2 3 -\n9 0 idle\n",
    )
}

#[test]
fn cancel_with_worker_inside(rt: HostRuntime) -> Result<(), Fail> {
    let script = cancelling(rt.alloc())?;
    let mut env = open(rt.alloc(), script)?;
    start_job(&rt, &mut env, 0);
    let pass = take_item(&rt, &mut env, 1, 0);
    env.job_cancel(0, 0);
    not_cancelled(&rt, &mut env, 0);
    leave(&rt, &mut env, 1, pass, 1);
    assert!(rt; env.try_cancelled(0, 0).is_ok());
    assert_log(
        rt.alloc(),
        &env.into_log(),
        "0 0 startjob 0 ok\n1 1 jobtake 0 0 0\n2 0 cancel 0\n3 1 jobstep 0 0 0 1 -\n\
        4 0 cancelled 0\n",
    )
}
