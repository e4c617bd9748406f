//! The run of a script on threads: one for each worker, and the caller's for the driver.
ghost use Rattle.std.specs.Prelude.{◌≡◌, ◌≤◌, [], All, length, true, IfOk, OnErr};
ghost use Rattle.task_base.specs.declared.limits.TheConstants.{MOST_EVENTS};
ghost use Rattle.log_model.specs.Fits.{Fits};
ghost use Rattle.hist_model.specs.Legal.{IsLegal};
ghost use Rattle.hist_model.specs.Script.{IsWhole};
ghost use Rattle.script_model.specs.Laws.Sound.{IsSound};
ghost use Rattle.env_core.specs.Calls.{AreFresh};
ghost use Rattle.env_crew.specs.Driving.{HasMomentsOf};
ghost use Rattle.env_shared.specs.Splits.{IsDriver};
ghost use Rattle.env_threads.specs.Crew.{AreBack, ArePromised, AreSpare, refused};

use crate::workers::{CallersDesk, Start, join_all, start_all, with_room};
use env_core::Env;
use env_crew::drive;
use env_io::{Clock, Gate};
use env_pauses::{NoClock, Pauses, Pausing, PausingDesk, ShakingGate};
use env_shared::{EnvSeat, Shared};
use std::alloc::{AllocError, Global};
use std::sync::Wait;
use std::sync::atomic::AtomicU32;
use std::thread::{Scope, Threads};
use std::{rt, thread};
use task_base::{Rows, Script};
use task_body::TaskBody;

/// Performs the script at the driver's desk, and waits for the workers. Those that have no thread are served meanwhile.
pub fn perform<'a, R: Threads + Wait, B: TaskBody, C: Clock, G: Gate, H: rt::Clock>(
    rt: &R,
    shared: &'a Shared<B>,
    script: &Script,
    first: EnvSeat<B>,
    starts: Rows<Start<B>>,
    mut spare: Rows<CallersDesk<'a, B, H>>,
    rest: Rows<EnvSeat<B>>,
    clock: &mut C,
    gate: &G,
    pausing: Option<Pausing<'a, H>>,
) -> (EnvSeat<B>, Rows<EnvSeat<B>>)
    requires plan { IsSound script.now }
    requires script { shared.now.basis ≡ script.now }
    requires stands { shared.now.stands ≡ true }
    requires first { IsDriver shared.now script.now.workers first }
    requires all { length starts.items ≡ script.now.workers }
    requires promised { ArePromised (λ handle. handle.promise.0.value) shared.now script.now.workers starts.items }
    requires spare { AreSpare shared.now (refused script.now.workers starts.items) spare.items }
    requires none { rest.items ≡ [] }
    requires room { script.now.workers ≤ rest.spare }
    ensures back { AreBack shared.now script.now.workers result.0 result.1.items }
    ensures moments { HasMomentsOf (C.readings clock.old) result.0.mine }
{
    let mut desk = PausingDesk::new(shared.desk(first), pausing);
    drive(rt, &mut desk, &mut spare, script, clock, gate);
    let first = desk.into_inner().into_seat();
    (first, join_all(rt, shared, starts, spare, rest))
}

/// Starts the workers, performs the script, and waits for them, in lists that have the room for it.
fn attend_all<'s, E, R: Threads + Wait + Sync, B: TaskBody + Send, C: Clock, G: Gate, H: rt::Clock>(
    rt: &'s R,
    scope: &Scope<'s, E>,
    shared: &'s Shared<B>,
    word: &'s AtomicU32,
    script: &Script,
    first: EnvSeat<B>,
    mut seats: Rows<EnvSeat<B>>,
    mut starts: Rows<Start<B>>,
    mut spare: Rows<CallersDesk<'s, B, H>>,
    rest: Rows<EnvSeat<B>>,
    clock: &mut C,
    gate: &'s G,
    pausing: Option<Pausing<'s, H>>,
) -> (EnvSeat<B>, Rows<EnvSeat<B>>)
    requires plan { IsSound script.now }
    requires script { shared.now.basis ≡ script.now }
    requires stands { shared.now.stands ≡ true }
    requires first { IsDriver shared.now 0 first }
    requires seats { (seats.items ≡ []) × (script.now.workers ≤ seats.spare) }
    requires starts { (starts.items ≡ []) × (script.now.workers ≤ starts.spare) }
    requires spare { (spare.items ≡ []) × (script.now.workers ≤ spare.spare) }
    requires rest { (rest.items ≡ []) × (script.now.workers ≤ rest.spare) }
    ensures back { AreBack shared.now script.now.workers result.0 result.1.items }
    ensures moments { HasMomentsOf (C.readings clock.old) result.0.mine }
{
    let first = shared.split_all(first, &mut seats, script.workers);
    start_all(
        rt,
        scope,
        shared,
        word,
        gate,
        seats,
        &mut starts,
        &mut spare,
    );
    perform(
        rt, shared, script, first, starts, spare, rest, clock, gate, pausing,
    )
}

/// All that needs the scope. The error is out of memory for the lists, and comes before the first start.
fn in_scope<R: Threads + Wait + Sync, B: TaskBody + Send, C: Clock, G: Gate, H: rt::Clock>(
    rt: &R,
    alloc: Global,
    shared: &Shared<B>,
    word: &AtomicU32,
    script: &Script,
    first: EnvSeat<B>,
    clock: &mut C,
    gate: &G,
    pausing: Option<Pausing<'_, H>>,
) -> Result<(EnvSeat<B>, Rows<EnvSeat<B>>), AllocError>
    requires plan { IsSound script.now }
    requires script { shared.now.basis ≡ script.now }
    requires stands { shared.now.stands ≡ true }
    requires first { IsDriver shared.now 0 first }
    ensures back { IfOk result (λ back. AreBack shared.now script.now.workers back.0 back.1.items) }
    ensures moments { IfOk result (λ back. HasMomentsOf (C.readings clock.old) back.0.mine) }
    ensures unread { OnErr result (clock.new ≡ clock.old) }
{
    let room = script.workers as usize;
    let seats = with_room(alloc, room)?;
    let starts = with_room(alloc, room)?;
    let spare = with_room(alloc, room)?;
    let rest = with_room(alloc, room)?;
    Ok(thread::scope(
        thread::scope_env(),
        rt,
        |scope| -> (EnvSeat<B>, Rows<EnvSeat<B>>)
            requires plan { IsSound script.now }
            requires script { shared.now.basis ≡ script.now }
            requires stands { shared.now.stands ≡ true }
            requires first { IsDriver shared.now 0 first }
            requires seats { (seats.items ≡ []) × (script.now.workers ≤ seats.spare) }
            requires starts { (starts.items ≡ []) × (script.now.workers ≤ starts.spare) }
            requires spare { (spare.items ≡ []) × (script.now.workers ≤ spare.spare) }
            requires rest { (rest.items ≡ []) × (script.now.workers ≤ rest.spare) }
            ensures back { AreBack shared.entry.now script.entry.now.workers result.0 result.1.items }
            ensures moments { HasMomentsOf (C.readings clock.entry.now) result.0.mine }
        {
            attend_all(
                rt, scope, shared, word, script, first, seats, starts, spare, rest, clock, gate,
                pausing,
            )
        },
    ))
}

/// Runs a script on threads. Where there are pauses, the driver makes them before its entries.
fn run<R: Threads + Wait + Sync, B: TaskBody + Send, C: Clock, G: Gate, H: rt::Clock>(
    rt: &R,
    alloc: Global,
    script: &Script,
    bodies: Vec<Box<B>>,
    clock: &mut C,
    gate: &G,
    pausing: Option<Pausing<'_, H>>,
) -> Result<Env<B>, AllocError>
    requires plan { IsSound script.now }
    requires bodies { AreFresh bodies.items (λ body. B.whole body.value) (λ body. B.rest body.value) script.now }
    ensures script { IfOk result (λ env. env.script ≡ script.now) }
    ensures legal { IfOk result (λ env. IsLegal script.now env.history) }
    ensures whole { IfOk result (λ env. IsWhole script.now env.history) }
    ensures bounded { IfOk result (λ env. length env.history ≤ MOST_EVENTS) }
    ensures fits { IfOk result (λ env. All Fits env.history) }
    ensures moments { IfOk result (λ env. HasMomentsOf (C.readings clock.old) env.history) }
    ensures unread { OnErr result (clock.new ≡ clock.old) }
{
    let (shared, first) = Shared::open(alloc, script.copy(alloc)?, bodies)?;
    let word = AtomicU32::new(0);
    let (first, rest) = in_scope(
        rt, alloc, &shared, &word, script, first, clock, gate, pausing,
    )?;
    Ok(shared.close(first, rest).0)
}

/// Runs a script on threads, and gives the environment at the end of the run. Each worker has a thread, which serves
/// until there will be nothing any more; the caller's thread performs the script. The work of a worker whose thread
/// can't be started is done by the caller while an action of the script waits. The error is out of memory: it comes
/// before the first entry, and the clock was not read.
pub fn run_crew<R: Threads + Wait + Sync, B: TaskBody + Send, C: Clock, G: Gate>(
    rt: &R,
    alloc: Global,
    script: &Script,
    bodies: Vec<Box<B>>,
    clock: &mut C,
    gate: &G,
) -> Result<Env<B>, AllocError>
    requires plan { IsSound script.now }
    requires bodies { AreFresh bodies.items (λ body. B.whole body.value) (λ body. B.rest body.value) script.now }
    ensures script { IfOk result (λ env. env.script ≡ script.now) }
    ensures legal { IfOk result (λ env. IsLegal script.now env.history) }
    ensures whole { IfOk result (λ env. IsWhole script.now env.history) }
    ensures bounded { IfOk result (λ env. length env.history ≤ MOST_EVENTS) }
    ensures fits { IfOk result (λ env. All Fits env.history) }
    ensures moments { IfOk result (λ env. HasMomentsOf (C.readings clock.old) env.history) }
    ensures unread { OnErr result (clock.new ≡ clock.old) }
{
    run(
        rt,
        alloc,
        script,
        bodies,
        clock,
        gate,
        None::<Pausing<'_, NoClock>>,
    )
}

/// As `run_crew`, with pauses by which threads overlap: a worker makes one between its take of a task and the task's first step,
/// once it has passed the gate, and the driver one before each of its entries, without the turn. Each thread sleeps in them by the
/// system's clock.
pub fn run_shaken<R: Threads + Wait + Sync + rt::Clock, B: TaskBody + Send, C: Clock, G: Gate>(
    rt: &R,
    alloc: Global,
    script: &Script,
    bodies: Vec<Box<B>>,
    clock: &mut C,
    gate: &G,
    pauses: Pauses,
) -> Result<Env<B>, AllocError>
    requires plan { IsSound script.now }
    requires bodies { AreFresh bodies.items (λ body. B.whole body.value) (λ body. B.rest body.value) script.now }
    ensures script { IfOk result (λ env. env.script ≡ script.now) }
    ensures legal { IfOk result (λ env. IsLegal script.now env.history) }
    ensures whole { IfOk result (λ env. IsWhole script.now env.history) }
    ensures bounded { IfOk result (λ env. length env.history ≤ MOST_EVENTS) }
    ensures fits { IfOk result (λ env. All Fits env.history) }
    ensures moments { IfOk result (λ env. HasMomentsOf (C.readings clock.old) env.history) }
    ensures unread { OnErr result (clock.new ≡ clock.old) }
{
    let gate = ShakingGate::new(gate, rt, pauses);
    run(
        rt,
        alloc,
        script,
        bodies,
        clock,
        &gate,
        Some(Pausing::new(rt, pauses)),
    )
}
