//! Workers on threads of their own.
ghost use Rattle.std.specs.Prelude.{◌≡◌, IfErr, IfOk};
ghost use Rattle.worked_calls.specs.Known.{CanAsk};

use crate::bodies::CountedBody;
use crate::desk_calls::{log_of_three, open_three};
use crate::scripts::{quiet, will};
use env_crew::{Desk, serve};
use env_io::Gate;
use env_shared::{EnvSeat, Shared};
use std::process::Abort;
use std::snapshot::Snapshot;
use std::sync::Wait;
use std::sync::atomic::{AtomicBool, AtomicU32, Ordering};
use std::test::Fail;
use std::thread::{Promise, PromisedHandle, Scope, Threads};
use std::{hint, thread};
use task_body::Taken;

/// A gate that holds its worker up until it is let go, or until it has looked for that often enough.
#[derive(Drop)]
struct HeldGate {
    reached: AtomicBool,
    let_go: AtomicBool,
    failed: AtomicBool,
    /// How often a worker found nothing.
    nothing: AtomicU32,
}

impl HeldGate {
    fn new() -> HeldGate {
        HeldGate {
            reached: AtomicBool::new(false),
            let_go: AtomicBool::new(false),
            failed: AtomicBool::new(false),
            nothing: AtomicU32::new(0),
        }
    }
}

/// Looks for the flag, and says whether it was seen.
fn sees(flag: &AtomicBool) -> bool {
    for _ in 0..100_000_000u32 {
        if flag.load(Ordering::SeqCst) {
            return true;
        }
        hint::spin_loop();
    }
    false
}

impl Gate for HeldGate {
    fn before(&self, _seat: u32, _task: u32) {
        self.reached.store(true, Ordering::SeqCst);
        if !sees(&self.let_go) {
            self.failed.store(true, Ordering::SeqCst);
        }
    }
}

/// The seat that comes back is of the same shared environment, with the same number.
#[derive(Drop)]
struct GivesBack(Snapshot<EnvSeat<CountedBody>>);

impl Promise<EnvSeat<CountedBody>> for GivesBack {
    ghost kept_by = { λ p back. (back.of ≡ p.0.value.of) × (back.number ≡ p.0.value.number) };
}

/// A worker takes so often, where there is nothing, and is then served once.
#[tactic(auto, using(crate::proofs::Seated::waits_first, crate::proofs::Seated::waits_on, env_shared::proofs::Sits::same_environment))]
fn attend<R: Wait + Abort>(
    rt: &R,
    shared: &Shared<CountedBody>,
    seat: EnvSeat<CountedBody>,
    gate: &HeldGate,
    takes: u32,
) -> EnvSeat<CountedBody>
    requires can { CanAsk shared.now seat }
    ensures of { result.of ≡ shared.now }
    ensures number { result.number ≡ seat.number }
{
    let mut worker = shared.desk(seat);
    for _round in 0..takes {
        match worker.take(rt) {
            Taken::Nothing => {
                gate.nothing.fetch_add(1, Ordering::SeqCst);
            }
            Taken::Item(_) | Taken::Over => panic!(rt; "an item, or it is over"),
            Taken::Task(_work) => panic!(rt; "a task that nobody posted"),
        }
    }
    serve(rt, &mut worker, gate);
    worker.into_seat()
}

type Start = Result<PromisedHandle<EnvSeat<CountedBody>, GivesBack>, EnvSeat<CountedBody>>;

/// Starts the thread of a worker. Where the start is refused the worker is attended to here.
fn start<'s, E, R: Threads + Wait + Abort + Sync>(
    rt: &'s R,
    scope: &Scope<'s, E>,
    shared: &'s Shared<CountedBody>,
    seat: EnvSeat<CountedBody>,
    gate: &'s HeldGate,
    takes: u32,
) -> Start
    requires can { CanAsk shared.now seat }
    ensures started { IfOk result (λ handle. handle.promise.0.value ≡ seat) }
    ensures refused { IfErr result (λ back. (back.of ≡ shared.now) × (back.number ≡ seat.number)) }
{
    let promise = GivesBack(Snapshot::of(&seat));
    match scope.spawn_with(
        promise,
        move || -> EnvSeat<CountedBody>
            requires can { CanAsk shared.now seat }
            ensures of { result.of ≡ shared.entry.now }
            ensures number { result.number ≡ seat.number }
        { attend(rt, shared, seat, gate, takes) },
    ) {
        Ok(handle) => Ok(handle),
        Err(refused) => Err((refused.value)()),
    }
}

/// Waits for a worker.
fn finish<R: Threads>(rt: &R, start: Start) -> EnvSeat<CountedBody>
    ensures started { IfOk start (λ handle. (result.of ≡ handle.promise.0.value.of) × (result.number ≡ handle.promise.0.value.number)) }
    ensures refused { IfErr start (λ back. result ≡ back) }
{
    match start {
        Ok(handle) => handle.join(rt),
        Err(back) => back,
    }
}

/// Where the first worker takes nothing first, it is soon at the gate.
fn await_first(rt: &impl Abort, gate: &HeldGate, takes: u32) {
    if takes == 0 {
        assert!(rt; sees(&gate.reached));
    }
}

/// Starts both workers, and lets the first one go when the second one is done, which takes 100 times.
fn attend_both<'s, E, R: Threads + Wait + Abort + Sync>(
    rt: &'s R,
    scope: &Scope<'s, E>,
    shared: &'s Shared<CountedBody>,
    one: EnvSeat<CountedBody>,
    two: EnvSeat<CountedBody>,
    gate: &'s HeldGate,
    takes: u32,
) -> (EnvSeat<CountedBody>, EnvSeat<CountedBody>)
    requires one { CanAsk shared.now one }
    requires two { CanAsk shared.now two }
    ensures one { (result.0.of ≡ shared.now) × (result.0.number ≡ one.number) }
    ensures two { (result.1.of ≡ shared.now) × (result.1.number ≡ two.number) }
{
    let one = start(rt, scope, shared, one, gate, takes);
    await_first(rt, gate, takes);
    let two = start(rt, scope, shared, two, gate, 100);
    let two = finish(rt, two);
    gate.let_go.store(true, Ordering::SeqCst);
    (finish(rt, one), two)
}

/// All of it that needs the scope.
fn scoped<R: Threads + Wait + Abort + Sync>(
    rt: &R,
    shared: &Shared<CountedBody>,
    one: EnvSeat<CountedBody>,
    two: EnvSeat<CountedBody>,
    gate: &HeldGate,
    takes: u32,
) -> (EnvSeat<CountedBody>, EnvSeat<CountedBody>)
    requires one { CanAsk shared.now one }
    requires two { CanAsk shared.now two }
    ensures one { (result.0.of ≡ shared.now) × (result.0.number ≡ one.number) }
    ensures two { (result.1.of ≡ shared.now) × (result.1.number ≡ two.number) }
{
    thread::scope(
        thread::scope_env(),
        rt,
        |scope| -> (EnvSeat<CountedBody>, EnvSeat<CountedBody>)
            requires one { CanAsk shared.now one }
            requires two { CanAsk shared.now two }
            ensures one { (result.0.of ≡ shared.entry.now) × (result.0.number ≡ one.number) }
            ensures two { (result.1.of ≡ shared.entry.now) × (result.1.number ≡ two.number) }
        { attend_both(rt, scope, shared, one, two, gate, takes) },
    )
}

/// So often a worker found nothing.
fn assert_nothing(rt: &impl Abort, gate: &HeldGate, wanted: u32) {
    assert_eq!(rt; gate.nothing.load(Ordering::SeqCst), wanted);
}

#[test]
fn nobody_takes_what_is_not_posted(rt: HostRuntime) -> Result<(), Fail> {
    let gate = HeldGate::new();
    let script = quiet(rt.alloc())?;
    let (shared, first, one, two) = open_three(rt.alloc(), script)?;
    let (one, two) = scoped(&rt, &shared, one, two, &gate, 100);
    assert_nothing(&rt, &gate, 200);
    let log = log_of_three(rt.alloc(), shared, first, one, two)?;
    assert!(rt; log.is_empty());
    Ok(())
}

#[test]
fn no_turn_is_held_at_the_gate(rt: HostRuntime) -> Result<(), Fail> {
    let gate = HeldGate::new();
    let script = will(rt.alloc())?;
    let (shared, first, one, two) = open_three(rt.alloc(), script)?;
    let mut driver = shared.desk(first);
    assert!(rt; driver.post(&rt, 0, 0, 0));
    let first = driver.into_seat();
    let (one, two) = scoped(&rt, &shared, one, two, &gate, 0);
    assert_nothing(&rt, &gate, 100);
    assert!(rt; !gate.failed.load(Ordering::SeqCst));
    let log = log_of_three(rt.alloc(), shared, first, one, two)?;
    assert!(rt; log.len() == 5);
    Ok(())
}
