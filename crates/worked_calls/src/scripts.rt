//! The scripts of the tests, by their texts.
ghost use Rattle.std.specs.Prelude.{◌≡◌, IfOk};
ghost use Rattle.script_model.specs.Laws.Sound.{IsSound};
ghost use Rattle.worked_calls.specs.Plans.{cancel_plan, closing_plan, first_plan, flush_plan, late_plan, may_plan, quiet_plan, will_plan, yield_plan};

use crate::texts::script_of;
use std::alloc::Global;
use std::test::Fail;
use task_base::Script;

/// The driver puts a policy in force.
pub fn quiet(alloc: Global) -> Result<Script, Fail>
    ensures sound { IfOk result IsSound }
    ensures plan { IfOk result (λ script. script ≡ quiet_plan) }
{
    script_of(alloc, "workers 2\ngroups 1 1 0\nthreshold 5\npolicy all\n")
}

/// The driver posts a task and waits for it.
pub fn first(alloc: Global) -> Result<Script, Fail>
    ensures sound { IfOk result IsSound }
    ensures plan { IfOk result (λ script. script ≡ first_plan) }
{
    script_of(
        alloc,
        "workers 1\ngroups 1 1 0\nthreshold 5\n\
        runner 0 sequenced user_visible skip\ntask 0 add 5\npost 0 0 0\nflush\n",
    )
}

/// The driver posts a task and waits for it, and then two more.
pub fn flushing(alloc: Global) -> Result<Script, Fail>
    ensures sound { IfOk result IsSound }
    ensures plan { IfOk result (λ script. script ≡ flush_plan) }
{
    script_of(
        alloc,
        "workers 1\ngroups 1 1 0\nthreshold 5\n\
        runner 0 sequenced user_visible skip\ntask 0 add 5\ntask 1 add 5\ntask 2 add 5\n\
        post 0 0 0\nflush\npost 1 0 0\npost 2 0 0\nflush\n",
    )
}

/// The driver posts a task of block work with a delay, and shuts down.
pub fn closing(alloc: Global) -> Result<Script, Fail>
    ensures sound { IfOk result IsSound }
    ensures plan { IfOk result (λ script. script ≡ closing_plan) }
{
    script_of(
        alloc,
        "workers 1\ngroups 1 1 0\nthreshold 5\n\
        runner 0 parallel user_visible block\ntask 0 add 1\npost 0 0 5\nshutdown\n",
    )
}

/// The driver posts a task to the runner and one to the main queue, which it does, and a skip task when shutdown is over.
pub fn late(alloc: Global) -> Result<Script, Fail>
    ensures sound { IfOk result IsSound }
    ensures plan { IfOk result (λ script. script ≡ late_plan) }
{
    script_of(
        alloc,
        "workers 1\ngroups 1 1 0\nthreshold 5\n\
        runner 0 parallel user_visible skip\nqueue 0 0 0\ntask 0 add 5\ntask 1 add 5\ntask 2 add 5\n\
        post 0 0 0\nmain 1 0 0\npump 1\nshutdown\npost 2 0 0\n",
    )
}

/// The driver posts two tasks and waits for them. The scope of the first one will block.
pub fn will(alloc: Global) -> Result<Script, Fail>
    ensures sound { IfOk result IsSound }
    ensures plan { IfOk result (λ script. script ≡ will_plan) }
{
    script_of(
        alloc,
        "workers 2\ngroups 1 1 0\nthreshold 5\n\
        runner 0 parallel user_visible skip mayblock\ntask 0 block will ; add 1 ; unblock\ntask 1 add 2\n\
        post 0 0 0\npost 1 0 0\nflush\n",
    )
}

/// The driver posts two tasks, ticks twice, and waits. The scope of the first one may block, and counts from 5 on.
pub fn may(alloc: Global) -> Result<Script, Fail>
    ensures sound { IfOk result IsSound }
    ensures plan { IfOk result (λ script. script ≡ may_plan) }
{
    script_of(
        alloc,
        "workers 2\ngroups 1 1 0\nthreshold 5\n\
        runner 0 parallel user_visible skip mayblock\ntask 0 block may ; add 1 ; unblock\ntask 1 add 2\n\
        post 0 0 0\npost 1 0 0\ntick 2\nflush\n",
    )
}

/// The driver starts a job, and posts a task that matters more.
pub fn yielding(alloc: Global) -> Result<Script, Fail>
    ensures sound { IfOk result IsSound }
    ensures plan { IfOk result (λ script. script ≡ yield_plan) }
{
    script_of(
        alloc,
        "workers 1\ngroups 1 1 0\nthreshold 5\n\
        runner 0 parallel user_blocking skip\ntask 0 add 1\njob 0 user_visible skip 3 1 add 1\n\
        startjob 0\npost 0 0 0\nflush\n",
    )
}

/// The driver starts a job and cancels it.
pub fn cancelling(alloc: Global) -> Result<Script, Fail>
    ensures sound { IfOk result IsSound }
    ensures plan { IfOk result (λ script. script ≡ cancel_plan) }
{
    script_of(
        alloc,
        "workers 1\ngroups 1 1 0\nthreshold 5\n\
        job 0 user_visible skip 4 2 add 1\nstartjob 0\ncancel 0\n",
    )
}
