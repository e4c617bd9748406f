//! The workers' seats, and the threads that serve them.
ghost use Rattle.std.specs.Prelude.{◌≡◌, ◌<◌, ◌≤◌, [], length, true, IfOk, IfErr};
ghost use Rattle.env_shared.specs.Splits.{AreWorkers, IsWorker};
ghost use Rattle.env_threads.specs.Crew.{AreSpare, ArePromised, refused};

use env_crew::{Desk, work};
use env_io::Gate;
use env_pauses::PausingDesk;
use env_shared::{EnvSeat, Shared, SharedDesk};
use std::alloc::{AllocError, Global};
use std::rt::Clock;
use std::snapshot::Snapshot;
use std::sync::Wait;
use std::sync::atomic::{AtomicU32, Ordering};
use std::thread::{Promise, PromisedHandle, Scope, Threads};
use task_base::Rows;
use task_body::TaskBody;

/// An empty list with room for so many items.
pub fn with_room<T: Drop>(alloc: Global, room: usize) -> Result<Rows<T>, AllocError>
    ensures empty { IfOk result (λ rows. rows.items ≡ []) }
    ensures room { IfOk result (λ rows. room ≤ rows.spare) }
{
    let mut rows = Rows::new(alloc);
    rows.reserve(room)?;
    Ok(rows)
}

/// The seat that a thread gives back is the worker's that it was given, and runs nothing.
#[derive(Drop)]
pub struct GivesBack<B: TaskBody>(Snapshot<EnvSeat<B>>);

impl<B: TaskBody> Promise<EnvSeat<B>> for GivesBack<B> {
    ghost use Rattle.env_shared.specs.Splits.{IsWorker};

    ghost kept_by = { λ p seat. IsWorker p.0.value.of p.0.value.number seat };
}

/// The start of a worker's thread, or `None` where it was refused.
pub type Start<B> = Option<PromisedHandle<EnvSeat<B>, GivesBack<B>>>;

/// A desk of the caller's thread: the driver's, which may pause, or that of a worker whose start was refused, which never does.
pub type CallersDesk<'a, B, H> = PausingDesk<'a, SharedDesk<'a, B>, H>;

/// What a worker's thread does. Where the word is the worker's number it gives the seat back at once.
fn attend<R: Wait, B: TaskBody, G: Gate>(
    rt: &R,
    shared: &Shared<B>,
    seat: EnvSeat<B>,
    word: &AtomicU32,
    gate: &G,
) -> EnvSeat<B>
    requires worker { IsWorker shared.now seat.number seat }
    requires number { 0 < seat.number }
    requires known { seat.number ≤ shared.now.basis.workers }
    ensures { IsWorker shared.now seat.number result }
{
    let mut desk = shared.desk(seat);
    if word.load(Ordering::SeqCst) != desk.number() {
        work(rt, &mut desk, gate);
    }
    desk.into_seat()
}

/// Starts a worker's thread. Where that is refused the seat comes back at once.
fn start<'s, E, R: Threads + Wait + Sync, B: TaskBody + Send, G: Gate>(
    rt: &'s R,
    scope: &Scope<'s, E>,
    shared: &'s Shared<B>,
    word: &'s AtomicU32,
    gate: &'s G,
    seat: EnvSeat<B>,
) -> Result<PromisedHandle<EnvSeat<B>, GivesBack<B>>, EnvSeat<B>>
    requires worker { IsWorker shared.now seat.number seat }
    requires number { 0 < seat.number }
    requires known { seat.number ≤ shared.now.basis.workers }
    ensures started { IfOk result (λ handle. handle.promise.0.value ≡ seat) }
    ensures refused { IfErr result (λ back. IsWorker shared.now seat.number back) }
{
    let number = seat.number();
    let promise = GivesBack(Snapshot::of(&seat));
    match scope.spawn_with(
        promise,
        move || -> EnvSeat<B>
            requires worker { IsWorker shared.now seat.number seat }
            requires number { 0 < seat.number }
            requires known { seat.number ≤ shared.now.basis.workers }
            ensures back { IsWorker shared.entry.now seat.number result }
        { attend(rt, shared, seat, word, gate) },
    ) {
        Ok(handle) => Ok(handle),
        Err(refused) => {
            word.store(number, Ordering::SeqCst);
            Err((refused.value)())
        }
    }
}

/// Starts all workers, the last one first. A worker whose thread is refused gets a spare desk.
pub fn start_all<'s, E, R: Threads + Wait + Sync, B: TaskBody + Send, G: Gate, H: Clock>(
    rt: &'s R,
    scope: &Scope<'s, E>,
    shared: &'s Shared<B>,
    word: &'s AtomicU32,
    gate: &'s G,
    mut seats: Rows<EnvSeat<B>>,
    starts: &mut Rows<Start<B>>,
    spare: &mut Rows<CallersDesk<'s, B, H>>,
)
    requires workers { AreWorkers shared.now 1 seats.items }
    requires known { length seats.items ≤ shared.now.basis.workers }
    requires no_starts { starts.old.items ≡ [] }
    requires no_spare { spare.old.items ≡ [] }
    requires room { length seats.items ≤ starts.old.spare }
    requires spare_room { length seats.items ≤ spare.old.spare }
    ensures all { length starts.new.items ≡ length seats.items }
    ensures promised { ArePromised (λ handle. handle.promise.0.value) shared.now (length seats.items) starts.new.items }
    ensures spare { AreSpare shared.now (refused (length seats.items) starts.new.items) spare.new.items }
{
    while let Some(seat) = seats.pop() {
        match start(rt, scope, shared, word, gate, seat) {
            Ok(handle) => starts.push_spare(Some(handle)),
            Err(back) => {
                starts.push_spare(None);
                spare.push_spare(PausingDesk::new(shared.desk(back), None));
            }
        }
    }
}

/// Waits for all workers, the first one first, and takes those of the spare desks in between.
pub fn join_all<R: Threads, B: TaskBody, H: Clock>(
    rt: &R,
    shared: &Shared<B>,
    mut starts: Rows<Start<B>>,
    mut spare: Rows<CallersDesk<'_, B, H>>,
    mut rest: Rows<EnvSeat<B>>,
) -> Rows<EnvSeat<B>>
    requires stands { shared.now.stands ≡ true }
    requires promised { ArePromised (λ handle. handle.promise.0.value) shared.now (length starts.items) starts.items }
    requires spare { AreSpare shared.now (refused (length starts.items) starts.items) spare.items }
    requires none { rest.items ≡ [] }
    requires room { length starts.items ≤ rest.spare }
    ensures all { length result.items ≡ length starts.items }
    ensures workers { AreWorkers shared.now 1 result.items }
{
    while let Some(start) = starts.pop() {
        let seat = match start {
            Some(handle) => handle.join(rt),
            None => match spare.pop() {
                Some(desk) => desk.into_inner().into_seat(),
                None => unreachable!(),
            },
        };
        rest.push_spare(seat);
    }
    rest
}
