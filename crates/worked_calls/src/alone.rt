//! Runs in which the worker has no thread: the driver serves it at a spare desk.
ghost use Rattle.std.specs.Prelude.{◌≡◌, IfOk};
ghost use Rattle.script_model.specs.Laws.Sound.{IsSound};
ghost use Rattle.worked_calls.specs.Known.{IsBack, IsOf, driver_seat, worker_seat};

use crate::bodies::CountedBody;
use crate::desk_calls::{log_of_two, open_two};
use crate::texts::{assert_log, script_of};
use env_crew::drive;
use env_io::{OpenGate, StepClock};
use env_shared::{EnvSeat, Shared};
use std::alloc::{AllocError, Global};
use std::process::Abort;
use std::sync::Wait;
use std::test::Fail;
use task_base::{Entry, Rows, Script};

/// Performs a script of one worker at these two seats, by readings so far apart. The worker's desk is a spare one.
fn drive_seats<R: Wait + Abort>(
    rt: &R,
    alloc: Global,
    shared: &Shared<CountedBody>,
    script: &Script,
    first: EnvSeat<CountedBody>,
    second: EnvSeat<CountedBody>,
    step: u64,
) -> Result<(EnvSeat<CountedBody>, EnvSeat<CountedBody>), AllocError>
    requires plan { IsSound script.now }
    requires one { script.now.workers ≡ 1 }
    requires script { shared.now.basis ≡ script.now }
    requires first { first ≡ driver_seat shared.now 2 }
    requires second { second ≡ worker_seat shared.now 1 }
    ensures first { IfOk result (λ back. IsBack shared.now 0 2 back.0) }
    ensures second { IfOk result (λ back. IsOf shared.now 1 back.1) }
{
    let mut driver = shared.desk(first);
    let worker = shared.desk(second);
    let mut spare = Rows::from_vec(vec![in alloc; worker]?);
    let mut clock = StepClock::new(step);
    drive(rt, &mut driver, &mut spare, script, &mut clock, &OpenGate);
    let first = driver.into_seat();
    let Some(desk) = spare.pop() else {
        panic!(rt; "the spare desk is away")
    };
    let second = desk.into_seat();
    Ok((first, second))
}

/// The log of a script of one worker, by readings so far apart.
fn drive_alone<R: Wait + Abort>(
    rt: &R,
    alloc: Global,
    script: &Script,
    step: u64,
) -> Result<Rows<Entry>, AllocError>
    requires plan { IsSound script.now }
    requires one { script.now.workers ≡ 1 }
{
    let copy = script.copy(alloc)?;
    let (shared, first, second) = open_two(alloc, copy)?;
    let (first, second) = drive_seats(rt, alloc, &shared, script, first, second, step)?;
    log_of_two(alloc, shared, first, second)
}

/// Such a run of this text, by readings that are 10 apart, has this log.
fn assert_alone<R: Wait + Abort>(rt: &R, alloc: Global, text: &str, log: &str) -> Result<(), Fail> {
    let script = script_of(alloc, text)?;
    assert!(rt; script.workers == 1);
    let entries = drive_alone(rt, alloc, &script, 10)?;
    assert_log(alloc, &entries, log)
}

#[test]
fn pool_without_threads(rt: HostRuntime) -> Result<(), Fail> {
    let rows = [
        // the value moves along with the sequence
        (
            "workers 1\nrunner 0 sequenced user_visible skip\ntask 0 add 5\ntask 1 mul 3\n\
            policy none\npost 0 0 0\npost 1 0 0\npolicy all\nflush\n",
            "0 0 policy none\n1 0 post 0 0 0 ok\n2 0 post 1 0 0 ok\n3 0 policy all\n\
            4 1 take 0 0 0\n5 1 end 0 5\n6 1 take 1 0 5\n7 1 end 1 15\n8 0 idle\n",
        ),
        // priority comes before the order of the posts
        (
            "workers 1\nrunner 0 parallel best_effort skip\nrunner 1 parallel user_visible skip\n\
            runner 2 parallel user_blocking skip\ntask 0 add 1\ntask 1 add 1\ntask 2 add 1\n\
            policy none\npost 0 0 0\npost 1 1 0\npost 2 2 0\npolicy all\nflush\n",
            "0 0 policy none\n1 0 post 0 0 0 ok\n2 0 post 1 1 0 ok\n3 0 post 2 2 0 ok\n4 0 policy all\n\
            5 1 take 2 2 0\n6 1 end 2 1\n7 1 take 1 1 0\n8 1 end 1 1\n9 1 take 0 0 0\n10 1 end 0 1\n11 0 idle\n",
        ),
        // delayed tasks come in the order in which they ripen
        (
            "workers 1\nrunner 0 sequenced user_visible skip\ntask 0 add 1\ntask 1 mul 2\ntask 2 set 7\n\
            policy none\npost 0 0 5\npost 1 0 3\npost 2 0 0\ntick 1\npolicy all\nflush\n",
            "0 0 policy none\n1 0 post 0 0 5 ok\n2 0 post 1 0 3 ok\n3 0 post 2 0 0 ok\n\
            4 0 tick 10\n5 0 policy all\n6 1 take 2 0 0\n7 1 end 2 7\n8 1 take 1 0 7\n9 1 end 1 14\n\
            10 1 take 0 0 14\n11 1 end 0 15\n12 0 idle\n",
        ),
        // shutdown skips, and waits for block work, which may post
        (
            "workers 1\nrunner 0 parallel user_visible skip\nrunner 1 parallel user_visible block\n\
            task 0 add 1\ntask 1 add 2\ntask 2 add 3\n\
            policy none\npost 0 0 0\npost 1 1 0\nshutdown\npost 2 1 0\n",
            "0 0 policy none\n1 0 post 0 0 0 ok\n2 0 post 1 1 0 ok\n3 0 shutdown\n\
            4 1 take 1 1 0\n5 1 end 1 2\n6 0 done\n7 0 post 2 1 0 no\n",
        ),
        (
            "workers 1\nrunner 0 parallel user_visible block\ntask 0 add 1\ntask 1 add 2 ; post 0 0 0\n\
            policy none\npost 1 0 0\nshutdown\n",
            "0 0 policy none\n1 0 post 1 0 0 ok\n2 0 shutdown\n3 1 take 1 0 0\n\
            4 1 post 0 0 0 ok\n5 1 end 1 2\n6 1 take 0 0 0\n7 1 end 0 1\n8 0 done\n",
        ),
    ];
    for (script, log) in rows {
        assert_alone(&rt, rt.alloc(), script, log)?;
    }
    Ok(())
}

#[test]
fn queues_and_jobs_without_threads(rt: HostRuntime) -> Result<(), Fail> {
    let rows = [
        // at most three delayed tasks come before an immediate one
        (
            "workers 1\nqueue 0 3 0\n\
            task 0 add 1\ntask 1 add 1\ntask 2 add 1\ntask 3 add 1\ntask 4 add 1\n\
            main 0 0 1\nmain 1 0 1\nmain 2 0 1\nmain 3 0 1\ntick 1\nmain 4 0 0\npump 5\n",
            "0 0 main 0 0 1 ok\n1 0 main 1 0 1 ok\n2 0 main 2 0 1 ok\n3 0 main 3 0 1 ok\n4 0 tick 10\n\
            5 0 main 4 0 0 ok\n6 0 maintake 0 0 0\n7 0 mainend 0 1\n8 0 maintake 1 0 1\n9 0 mainend 1 2\n\
            10 0 maintake 2 0 2\n11 0 mainend 2 3\n12 0 maintake 4 0 3\n13 0 mainend 4 4\n\
            14 0 maintake 3 0 4\n15 0 mainend 3 5\n",
        ),
        // one voter switches a queue off, and a closed one accepts nothing
        (
            "workers 1\nqueue 0 3 1\ntask 0 add 1\ntask 1 add 1\n\
            vote 0 0 off\nmain 0 0 0\npump 1\nvote 0 0 on\npump 1\nclose 0\nmain 1 0 0\n",
            "0 0 vote 0 0 off\n1 0 main 0 0 0 ok\n2 0 mainnone\n3 0 vote 0 0 on\n4 0 maintake 0 0 0\n\
            5 0 mainend 0 1\n6 0 close 0\n7 0 main 1 0 0 no\n",
        ),
        // the driver joins a job alone
        (
            "workers 1\njob 0 user_visible skip 10 3 mul 2 ; add 1\npolicy none\nstartjob 0\njoin 0\n",
            "0 0 policy none\n1 0 startjob 0 ok\n2 0 jobtake 0 0 0\n3 0 jobstep 0 0 0 1 1\n4 0 jobstep 0 0 1 3 2\n\
            5 0 jobstep 0 0 2 5 3\n6 0 jobstep 0 0 3 7 4\n7 0 jobstep 0 0 4 9 5\n8 0 jobstep 0 0 5 11 6\n\
            9 0 jobstep 0 0 6 13 7\n10 0 jobstep 0 0 7 15 8\n11 0 jobstep 0 0 8 17 9\n12 0 jobstep 0 0 9 19 -\n\
            13 0 joined 0 done 100\n",
        ),
        // a job is cancelled, and another one refused
        (
            "workers 1\njob 0 user_visible skip 4 2 add 1\njob 1 user_visible skip 4 2 add 1\npolicy none\n\
            startjob 0\ncancel 0\njoin 0\nshutdown\nstartjob 1\njoin 1\n",
            "0 0 policy none\n1 0 startjob 0 ok\n2 0 cancel 0\n3 0 cancelled 0\n4 0 joined 0 cancelled\n5 0 shutdown\n\
            6 0 done\n7 0 startjob 1 no\n8 0 joined 1 refused\n",
        ),
    ];
    for (script, log) in rows {
        assert_alone(&rt, rt.alloc(), script, log)?;
    }
    Ok(())
}

#[test]
fn first_runs_and_fences_without_threads(rt: HostRuntime) -> Result<(), Fail> {
    let rows = [
        (
            "workers 1\nrunner 0 sequenced user_visible skip\ntask 0 add 5\npost 0 0 0\nflush\n",
            "0 0 post 0 0 0 ok\n1 1 take 0 0 0\n2 1 end 0 5\n3 0 idle\n",
        ),
        // nothing is done
        ("workers 1\n", ""),
        // of equal priority the earlier post comes first
        (
            "workers 1\nrunner 0 sequenced user_visible skip\nrunner 1 sequenced user_visible skip\n\
            task 0 add 1\ntask 1 add 1\npolicy none\npost 0 1 0\npost 1 0 0\npolicy all\nflush\n",
            "0 0 policy none\n1 0 post 0 1 0 ok\n2 0 post 1 0 0 ok\n3 0 policy all\n\
            4 1 take 0 1 0\n5 1 end 0 1\n6 1 take 1 0 0\n7 1 end 1 1\n8 0 idle\n",
        ),
        // delayed work does not block shutdown
        (
            "workers 1\nrunner 0 parallel user_visible block\ntask 0 add 1\npost 0 0 5\nshutdown\ntick 1\n",
            "0 0 post 0 0 5 ok\n1 0 shutdown\n2 0 done\n3 0 tick 10\n",
        ),
        // a fence at now, and one at the start that is replaced
        (
            "workers 1\nqueue 0 3 0\ntask 0 add 1\ntask 1 add 2\n\
            main 0 0 0\nfence 0 now\nmain 1 0 0\npump 5\nunfence 0\npump 5\n",
            "0 0 main 0 0 0 ok\n1 0 fence 0 now\n2 0 main 1 0 0 ok\n3 0 maintake 0 0 0\n4 0 mainend 0 1\n\
            5 0 mainnone\n6 0 unfence 0\n7 0 maintake 1 0 1\n8 0 mainend 1 3\n9 0 mainnone\n",
        ),
        (
            "workers 1\nqueue 0 3 0\ntask 0 add 1\ntask 1 add 2\ntask 2 add 4\n\
            main 0 0 0\nfence 0 start\nmain 1 0 0\nfence 0 now\nmain 2 0 0\npump 5\n",
            "0 0 main 0 0 0 ok\n1 0 fence 0 start\n2 0 main 1 0 0 ok\n3 0 fence 0 now\n4 0 main 2 0 0 ok\n\
            5 0 maintake 0 0 0\n6 0 mainend 0 1\n7 0 maintake 1 0 1\n8 0 mainend 1 3\n9 0 mainnone\n",
        ),
        // the lesser class comes first
        (
            "workers 1\nqueue 0 3 0\nqueue 1 2 0\ntask 0 add 1\ntask 1 add 1\ntask 2 add 1\n\
            main 0 0 0\nmain 1 1 0\npump 1\nrank 0 0\nmain 2 1 0\npump 5\n",
            "0 0 main 0 0 0 ok\n1 0 main 1 1 0 ok\n2 0 maintake 1 1 0\n3 0 mainend 1 1\n4 0 rank 0 0\n\
            5 0 main 2 1 0 ok\n6 0 maintake 0 0 0\n7 0 mainend 0 1\n8 0 maintake 2 1 1\n9 0 mainend 2 2\n\
            10 0 mainnone\n",
        ),
    ];
    for (script, log) in rows {
        assert_alone(&rt, rt.alloc(), script, log)?;
    }
    Ok(())
}
