ghost use Rattle.std.specs.Prelude.{◌≡◌, ◌<◌, ◌≤◌, ◌+◌, ◌^◌, [], length, true, false, IfOk};
ghost use Rattle.std.specs.List.{AllByRecursion};
ghost use Rattle.script_model.specs.Laws.Sound.{IsSound};
ghost use Rattle.env_core.specs.Calls.{AreFresh};
ghost use Rattle.hist_model.specs.Legal.{IsLegal};
ghost use Rattle.task_model.specs.Jobs.{item_value};
ghost use Rattle.turn_table.specs.Seats.{Rising, Tells, closed};
ghost use Rattle.env_roster.specs.Wakes.{names_seats};
ghost use Rattle.env_shared.specs.Beds.{AreInPlace};
ghost use Rattle.env_shared.specs.Sits.{Seated};
ghost use Rattle.env_shared.specs.Splits.{AreWorkers, IsDriver};

use crate::bed::Bed;
use crate::desk::SharedDesk;
use crate::workers::workers_of;
use env_core::Env;
use env_roster::{Rest, Roster, Wake};
use job_source::{JobWorker, StepsWorker};
use std::alloc::{AllocError, Global};
use std::marker::Model;
use std::sync::Wait;
use task_base::{JobId, Rows, Script, SeatNo};
use task_body::TaskBody;
use turn_table::{Seat, Turnstile};

/// A seat of an environment that is shared.
pub type EnvSeat<B> = Seat<Roster<B>>;

/// An environment that many threads share (this project's own rule; a browser's threads share Chromium's
/// `base/task/thread_pool` through its locks). Threads borrow it in a scope, or hold it by an `Arc`.
///
/// Contracts see which turnstile it stands under, with the script that it was opened with.
#[derive(Drop)]
pub struct Shared<B: TaskBody> {
    pub(crate) turnstile: Turnstile<Roster<B>>,
    /// The work of each job, which no call of the environment touches.
    workers: Rows<StepsWorker>,
    /// What the thread of each seat sleeps on.
    beds: Rows<Bed>,
}

impl<B: TaskBody> Model for Shared<B> {
    ghost use Rattle.std.specs.Prelude.{◌≡◌, ◌+◌, true, length};
    ghost use Rattle.script_model.specs.Laws.Sound.{IsSound};
    ghost use Rattle.turn_table.specs.Seats.{TurnKey};
    ghost use Rattle.env_shared.specs.Beds.{AreInPlace};
    ghost use Rattle.env_shared.specs.Workers.{steps_of_jobs};

    ghost Value = { TurnKey };

    ghost view = { λ s. s.turnstile };

    ghost invariant = { λ s. IsSound s.turnstile.basis × (s.turnstile.stands ≡ true) × (s.workers.items ≡ steps_of_jobs s.turnstile.basis)
        × (length s.beds.items ≡ s.turnstile.basis.workers + 1) × AreInPlace s.beds.items };
}

impl<B: TaskBody> Shared<B> {
    /// Opens the environment of a script, with a body for each task, and gives the driver's seat. The error
    /// is want of memory, and nothing was entered.
    pub fn open(
        alloc: Global,
        script: Script,
        bodies: Vec<Box<B>>,
    ) -> Result<(Shared<B>, EnvSeat<B>), AllocError>
        requires plan { IsSound script }
        requires bodies { AreFresh bodies.items (λ body. B.whole body.value) (λ body. B.rest body.value) script }
        ensures script { IfOk result (λ made. made.0.basis ≡ script) }
        ensures stands { IfOk result (λ made. made.0.stands ≡ true) }
        ensures seat { IfOk result (λ made. made.1 ≡ record { of = made.0; number = 0; seen = []; mine = []; made = 1; loads = 0; last = 0; turns = 0; told = false }) }
    {
        let workers = workers_of(alloc, &script)?;
        let count = script.workers;
        let beds = beds(alloc, count)?;
        let roster = Roster::new(alloc, Env::open(alloc, script, bodies)?, count)?;
        match Turnstile::new(alloc, roster) {
            Ok((turnstile, seat)) => Ok((
                Shared {
                    turnstile,
                    workers,
                    beds,
                },
                seat,
            )),
            Err((_roster, error)) => Err(error),
        }
    }

    /// Gives the next worker's number to a second seat, which sees what the driver's sees and has no entries.
    pub fn split(&self, seat: EnvSeat<B>) -> (EnvSeat<B>, EnvSeat<B>)
        requires of { seat.of ≡ self.now }
        requires first { seat.number ≡ 0 }
        requires worker { seat.made ≤ self.now.basis.workers }
        ensures first { result.0 ≡ record seat { made = seat.made + 1 } }
        ensures second { result.1 ≡ record { of = seat.of; number = seat.made; seen = seat.seen; mine = []; made = 0; loads = 0; last = 0; turns = 0; told = seat.told } }
    {
        self.turnstile.split(seat)
    }

    /// Gives the seats of the first so many workers, split off the driver's, which has no entries yet.
    pub fn split_all(
        &self,
        first: EnvSeat<B>,
        seats: &mut Rows<EnvSeat<B>>,
        count: u32,
    ) -> EnvSeat<B>
        requires first { IsDriver self.now 0 first }
        requires count { count ≤ self.now.basis.workers }
        requires none { seats.old.items ≡ [] }
        requires room { count ≤ seats.old.spare }
        ensures first { IsDriver self.now count result }
        ensures all { length seats.new.items ≡ count }
        ensures workers { AreWorkers self.now 1 seats.new.items }
    {
        let mut first = first;
        for _ in 0..count {
            let (kept, next) = self.split(first);
            first = kept;
            seats.push_spare(next);
        }
        first
    }

    /// Puts a seat at a desk, from which it takes the turn.
    pub fn desk(&self, seat: EnvSeat<B>) -> SharedDesk<'_, B>
        requires of { seat.of ≡ self.now }
        requires known { seat.number ≤ self.now.basis.workers }
        ensures seat { result.seat ≡ seat }
        ensures awake { result.rests ≡ false }
        ensures seated { Seated result.seat }
    {
        SharedDesk::new(self, seat)
    }

    /// The value of an item of a job. It takes no turn: the work of jobs stands beside it.
    pub fn value(&self, job: JobId, item: u32) -> u64
        requires { job < length self.now.basis.jobs }
        ensures { result ≡ item_value self.now.basis job item }
    {
        let _turnstile = &self.turnstile;
        self.workers.at(job as usize).unwrap().value(item)
    }

    /// Closes it once all seats came back, and gives the environment that stood under the turn. The seat that comes
    /// back with it is of no shared environment any more: it says what the driver's seat knew.
    pub fn close(self, first: EnvSeat<B>, rest: Rows<EnvSeat<B>>) -> (Env<B>, EnvSeat<B>)
        requires of { first.of ≡ self }
        requires first { first.number ≡ 0 }
        requires rest { Rising self 1 rest.items }
        requires all { first.made ≡ length rest.items + 1 }
        ensures script { result.0.script ≡ self.basis }
        ensures legal { IsLegal self.basis result.0.history }
        ensures bound { length result.0.history < 2 ^ 32 }
        ensures first { Tells result.0.history first }
        ensures rest { AllByRecursion (Tells result.0.history) rest.items }
        ensures seat { result.1 ≡ record first { of = closed self } }
    {
        let (roster, spent) = self.turnstile.close(first, rest);
        (roster.into_env(), spent)
    }

    /// Has the thread of a seat that was noted sleep until the seat is woken, or not at all where it was woken since.
    pub(crate) fn sleep<R: Wait>(&self, rt: &R, seat: SeatNo, rest: Rest)
        requires known { seat ≤ self.now.basis.workers }
        requires own { rest ≡ seat }
    {
        self.bed(seat).park(rt, rest);
    }

    /// Wakes who is named, once the turn was given back.
    pub(crate) fn wake(&self, wake: Wake)
        requires { names_seats self.now.basis.workers wake }
    {
        match wake {
            Wake::Nobody => {}
            Wake::One(woken) => self.bed(woken.seat()).unpark(woken),
            Wake::Everyone => {
                for bed in self.beds.as_slice() {
                    bed.unpark_with_all();
                }
            }
        }
    }

    // What the thread of a seat sleeps on.
    fn bed(&self, seat: SeatNo) -> &Bed
        requires { seat ≤ self.now.basis.workers }
        ensures { result.now ≡ seat }
    {
        let _turnstile = &self.turnstile;
        self.beds.at(seat as usize).unwrap()
    }
}

// What the threads of the driver and so many workers sleep on. The error is out of memory.
fn beds(alloc: Global, workers: SeatNo) -> Result<Rows<Bed>, AllocError>
    requires { workers < 2 ^ 31 }
    ensures all { IfOk result (λ beds. length beds.items ≡ workers + 1) }
    ensures numbered { IfOk result (λ beds. AreInPlace beds.items) }
{
    let mut beds = Vec::with_capacity(alloc, workers as usize + 1)?;
    for seat in 0..workers + 1 {
        beds.push(Bed::new(seat))?;
    }
    Ok(Rows::from_vec(beds))
}
