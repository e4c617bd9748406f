//! The shutdown front of a turnstile over an environment.
ghost use Rattle.std.specs.Prelude.{◌≡◌, ◌∷◌, [], true, IfOk};
ghost use Rattle.task_base.specs.declared.entry.Kind.TheVariants as kinds;
ghost use Rattle.task_base.specs.Entries.{entry_by};
ghost use Rattle.worked_calls.specs.Known.{IsBack, IsOf, driver_seat, worker_seat};
ghost use Rattle.worked_calls.specs.Plans.{closing_plan};

use crate::bodies::CountedBody;
use crate::calls::open;
use crate::scripts::closing;
use crate::texts::assert_log;
use env_core::Env;
use std::alloc::{AllocError, Global};
use std::process::Abort;
use std::sync::Wait;
use std::test::Fail;
use task_base::{Entry, Rows};
use turn_table::{Seat, Turnstile};

type EnvTurnstile = Turnstile<Env<CountedBody>>;

type EnvSeat = Seat<Env<CountedBody>>;

/// A turnstile over the environment of a script that shuts down, and the seats of the driver and of its worker.
fn turnstile_of(rt: &impl Abort, alloc: Global) -> Result<(EnvTurnstile, EnvSeat, EnvSeat), Fail>
    ensures script { IfOk result (λ made. made.0.basis ≡ closing_plan) }
    ensures first { IfOk result (λ made. made.1 ≡ driver_seat made.0 2) }
    ensures worker { IfOk result (λ made. made.2 ≡ worker_seat made.0 1) }
{
    let script = closing(alloc)?;
    let env = open(alloc, script)?;
    let Ok((turnstile, first)) = Turnstile::new(alloc, env) else {
        panic!(rt; "no memory")
    };
    let (first, worker) = turnstile.split(first);
    Ok((turnstile, first, worker))
}

/// A seat reads this front.
fn assert_front(rt: &impl Abort, turnstile: &EnvTurnstile, seat: &mut EnvSeat, wanted: Option<u64>)
    requires { seat.old.of ≡ turnstile.now }
    ensures of { seat.new.of ≡ seat.old.of }
    ensures number { seat.new.number ≡ seat.old.number }
{
    assert_eq!(rt; turnstile.front(seat), wanted);
}

/// The driver posts the task in one turn.
fn post<R: Wait + Abort>(rt: &R, turnstile: &EnvTurnstile, first: EnvSeat) -> EnvSeat
    requires script { turnstile.now.basis ≡ closing_plan }
    requires first { first ≡ driver_seat turnstile.now 2 }
    ensures back { IsBack turnstile.now 0 2 result }
    ensures own { result.mine ≡ entry_by 0 (kinds.Post 0 0 5 true) ∷ [] }
{
    let (mut env, holding) = turnstile.turn(rt, first);
    assert!(rt; env.post(0, 0, 0, 5));
    turnstile.enter(env, holding)
}

/// It starts shutdown in its next turn.
fn shut_down<R: Wait>(rt: &R, turnstile: &EnvTurnstile, first: EnvSeat) -> EnvSeat
    requires script { turnstile.now.basis ≡ closing_plan }
    requires back { IsBack turnstile.now 0 2 first }
    requires own { first.mine ≡ entry_by 0 (kinds.Post 0 0 5 true) ∷ [] }
    ensures { IsBack turnstile.now 0 2 result }
{
    let (mut env, holding) = turnstile.turn(rt, first);
    env.start_shutdown(0);
    turnstile.enter_shutdown(env, holding)
}

/// The worker reads this front while the driver holds the turn, which enters nothing.
fn assert_front_held<R: Wait + Abort>(
    rt: &R,
    turnstile: &EnvTurnstile,
    first: EnvSeat,
    worker: &mut EnvSeat,
    wanted: Option<u64>,
) -> EnvSeat
    requires back { IsBack turnstile.now 0 2 first }
    requires worker { worker.old.of ≡ turnstile.now }
    ensures back { IsBack turnstile.now 0 2 result }
    ensures of { worker.new.of ≡ worker.old.of }
    ensures number { worker.new.number ≡ worker.old.number }
{
    let (env, holding) = turnstile.turn(rt, first);
    assert_front(rt, turnstile, worker, wanted);
    turnstile.back(env, holding)
}

/// Closes the turnstile, and gives its log.
fn log_of(
    alloc: Global,
    turnstile: EnvTurnstile,
    first: EnvSeat,
    worker: EnvSeat,
) -> Result<Rows<Entry>, AllocError>
    requires first { IsBack turnstile 0 2 first }
    requires worker { IsOf turnstile 1 worker }
{
    let rest = Rows::from_vec(vec![in alloc; worker]?);
    let (env, _closed) = turnstile.close(first, rest);
    Ok(env.into_log())
}

#[test]
fn front_is_read_while_the_turn_is_held(rt: HostRuntime) -> Result<(), Fail> {
    let (turnstile, first, mut worker) = turnstile_of(&rt, rt.alloc())?;
    let first = post(&rt, &turnstile, first);
    assert_front(&rt, &turnstile, &mut worker, None);
    let first = shut_down(&rt, &turnstile, first);
    let first = assert_front_held(&rt, &turnstile, first, &mut worker, Some(1));
    let log = log_of(rt.alloc(), turnstile, first, worker)?;
    assert_log(rt.alloc(), &log, "0 0 post 0 0 5 ok\n1 0 shutdown\n")
}
