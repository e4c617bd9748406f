//! How long bodies live, where they and cells are, and how often work runs. Each body holds one share of a word.
ghost use Rattle.std.specs.Prelude.{◌≡◌, ◌∷◌, []};
ghost use Rattle.worked_calls.specs.Known.{at_start};
ghost use Rattle.worked_calls.specs.Plans.{late_plan};
ghost use Rattle.worked_calls.specs.Lives.{first_done, main_done};

use crate::bodies::{CountedBody, Word};
use crate::calls::{assert_kept, end, end_main, open_with, post, step, take, take_main};
use crate::counts::{assert_raised, assert_shares};
use crate::scripts::{late, will};
use crate::texts::assert_log;
use env_core::Env;
use std::process::Abort;
use std::sync::Arc;
use std::sync::atomic::{AtomicU64, Ordering};
use std::test::Fail;
use task_base::{Cell, Rows, Step};
use task_body::{Act, OnceBody, TaskBody, Work};

#[test]
fn env_is_dropped_with_bodies_in_the_drawer(rt: HostRuntime) -> Result<(), Fail> {
    let word = Arc::new(rt.alloc(), AtomicU64::new(0))?;
    let script = will(rt.alloc())?;
    let env = open_with(rt.alloc(), script, &word)?;
    assert_shares(&rt, &word, 3);
    drop(env);
    assert_shares(&rt, &word, 1);
    assert_raised(&rt, &word, 0);
    Ok(())
}

/// A worker does the first task.
fn do_first(rt: &impl Abort, env: &mut Env<CountedBody>)
    requires { env.old ≡ at_start late_plan }
    ensures { env.new ≡ first_done }
{
    post(rt, env, 0);
    assert_kept(rt, env, [true, true, true], [false, false]);
    let mut work = take(rt, env, 1, 0);
    assert_kept(rt, env, [false, true, true], [true, false]);
    step(rt, &mut work, Act::Did(1));
    end(rt, env, 1, 0, work, 5);
}

/// The driver does the second task.
fn do_main(rt: &impl Abort, env: &mut Env<CountedBody>)
    requires { env.old ≡ first_done }
    ensures { env.new ≡ main_done }
{
    assert!(rt; env.main_post(0, 1, 0, 0));
    assert_kept(rt, env, [false, true, true], [false, false]);
    let mut work = take_main(rt, env, 1);
    assert_kept(rt, env, [false, false, true], [false, true]);
    step(rt, &mut work, Act::Did(1));
    end_main(rt, env, 1, work, 5);
    assert_kept(rt, env, [false, false, true], [false, false]);
}

/// Shutdown is over, and the third task is refused.
fn refuse_last(rt: &impl Abort, env: &mut Env<CountedBody>, word: &Word)
    requires { env.old ≡ main_done }
{
    env.start_shutdown(0);
    match env.try_done(0) {
        Ok(()) => {}
        Err(_) => panic!(rt; "nothing blocks shutdown"),
    }
    assert_shares(rt, word, 2);
    assert!(rt; !env.post(0, 2, 0, 0));
    assert_kept(rt, env, [false, false, false], [false, false]);
    assert_shares(rt, word, 1);
}

#[test]
fn a_take_or_a_refused_post_empties_the_drawer(rt: HostRuntime) -> Result<(), Fail> {
    let word = Arc::new(rt.alloc(), AtomicU64::new(0))?;
    let script = late(rt.alloc())?;
    let mut env = open_with(rt.alloc(), script, &word)?;
    do_first(&rt, &mut env);
    do_main(&rt, &mut env);
    refuse_last(&rt, &mut env, &word);
    assert_log(
        rt.alloc(),
        &env.into_log(),
        "0 0 post 0 0 0 ok\n1 1 take 0 0 0\n2 1 end 0 5\n3 0 main 1 0 0 ok\n4 0 maintake 1 0 0\n\
        5 0 mainend 1 5\n6 0 shutdown\n7 0 done\n8 0 post 2 0 0 no\n",
    )
}

/// Adds 5, and raises a word at each run.
#[derive(Drop)]
struct Raise {
    word: Word,
}

impl Work for Raise {
    ghost use Rattle.std.specs.Prelude.{◌∷◌, []};
    ghost use Rattle.task_base.specs.declared.step.Step.TheVariants.{Add};

    ghost steps = { λ _. Add 5 ∷ [] };

    fn run(self, value: u64) -> u64 {
        self.word.fetch_add(1, Ordering::SeqCst);
        value.wrapping_add(5)
    }
}

/// A body does its next step.
fn assert_step(rt: &impl Abort, body: &mut impl TaskBody, cell: &mut Cell, wanted: Act) {
    assert_eq!(rt; body.step(cell), wanted);
}

#[test]
fn once_body_runs_its_work_at_its_first_step(rt: HostRuntime) -> Result<(), Fail> {
    let word = Arc::new(rt.alloc(), AtomicU64::new(0))?;
    let work = Raise {
        word: Arc::try_clone(&word)?,
    };
    let steps = Rows::from_vec(vec![in rt.alloc(); Step::Add(5)]?);
    let mut body = OnceBody::new(steps, work);
    let mut cell = Cell::new();
    assert_raised(&rt, &word, 0);
    assert_step(&rt, &mut body, &mut cell, Act::Did(1));
    assert_raised(&rt, &word, 1);
    assert_step(&rt, &mut body, &mut cell, Act::Finished);
    assert_raised(&rt, &word, 1);
    assert!(rt; cell.value() == 5);
    Ok(())
}
