ghost use Rattle.std.specs.Prelude.{◌≡◌, ℕ, ◌<◌, ◌+◌, ◌^◌, ◌||◌, false, [], List, replicate, slice_set, IfOk, Err, Some, None};
ghost use Rattle.task_base.specs.Plan.{Plan, opened};
ghost use Rattle.task_base.specs.declared.entry.Entry.{Entry};
ghost use Rattle.script_model.specs.Laws.Sound.{IsSound};
ghost use Rattle.task_model.specs.Phase.{phase_of};
ghost use Rattle.hist_model.specs.Open.{is_done};
ghost use Rattle.live_roster.specs.declared.note.Note.TheVariants as kinds;
ghost use Rattle.live_core.specs.Opening.{guest_runner};
ghost use Rattle.live_core.specs.Waits.{has_come};
ghost use Rattle.live_roster.specs.Answers.{CallGives, RestGives, wish_after};
ghost use Rattle.live_roster.specs.StandsFor.{StandsFor};

use crate::note::Note;
use crate::rest::{Rest, Unrested};
use crate::wake::Wake;
use live_core::{Call, LiveCore, OpenError, Unmade};
use std::alloc::{AllocError, Global};
use task_base::{Kind, Script, SeatNo};

/// A live core, with a note of each seat: whoever holds the lock has it.
///
/// A seat whose call found nothing may rest until the call would find something; its thread sleeps then, once the lock is free.
/// Each call answers, beside the core's answer, whom to wake. All memory is taken by `open`.
#[derive(Drop)]
pub struct LiveRoster {
    pub(crate) core: LiveCore,
    pub(crate) notes: Vec<Note>,
    /// What the driver rests for, where it rests.
    pub(crate) wish: Call,
    /// False only where nobody rests, so that there it costs nothing to see whom to wake.
    pub(crate) some_rest: bool,
}

impl LiveRoster {
    /// The environment of a script's open plan, as `LiveCore::open` gives it, all of whose seats are awake. The error is out of
    /// memory, or a runner that is bound to the guest's seat.
    pub fn open(alloc: Global, script: Script) -> Result<LiveRoster, OpenError>
        requires { IsSound script }
        ensures stands { IfOk result (λ roster. StandsFor (opened script) [] roster) }
        ensures awake { IfOk result (λ roster. roster.notes.items ≡ replicate (script.workers + 1) kinds.Awake) }
        ensures free_guest { IfOk result (λ roster. guest_runner script ≡ None) }
        ensures bound_guest { (runner : ℕ) → result ≡ Err (OpenError.GuestRunner runner) → guest_runner script ≡ Some runner }
    {
        let workers = script.workers;
        let core = LiveCore::open(alloc, script)?;
        match LiveRoster::all_awake(alloc, core, workers) {
            Ok(roster) => Ok(roster),
            Err(error) => Err(OpenError::OutOfMemory(error)),
        }
    }

    // A core of so many workers, all of whose seats are awake. The error is out of memory.
    fn all_awake(alloc: Global, core: LiveCore, workers: SeatNo) -> Result<LiveRoster, AllocError>
        ensures core { IfOk result (λ roster. roster.core ≡ core) }
        ensures awake { IfOk result (λ roster. roster.notes.items ≡ replicate (workers + 1) kinds.Awake) }
        ensures none { IfOk result (λ roster. roster.some_rest ≡ false) }
        ensures few { workers < 2 ^ 32 }
    {
        let notes = vec![in alloc; Note::Awake; workers as usize + 1]?;
        Ok(LiveRoster {
            core,
            notes,
            wish: Call::Idle,
            some_rest: false,
        })
    }

    /// Makes a call of the core, by the thread of a seat, which is awake from then on. That is the call's own seat, or, where a
    /// worker or a guest reads the clock, or serves as the driver while that does nothing, the seat of the thread that does.
    pub fn call(&mut self, by: SeatNo, call: Call) -> (Result<Kind, Unmade>, Wake)
        requires { (plan : Plan) × (past : List Entry) × StandsFor plan past self.old }
        ensures { (plan : Plan) (past : List Entry) → StandsFor plan past self.old → CallGives plan past by call self.old self.new result.0 result.1 }
    {
        let answer = self.core.call(call);
        note_seat(&mut self.notes, by, Note::Awake);
        (answer, self.rouse())
    }

    /// The call's seat, for which it found nothing, rests until it would: whoever has the answer may sleep once the lock is free.
    /// A main thread that found no main task can't rest for one.
    pub fn rest(&mut self, call: Call) -> (Result<Rest, Unrested>, Wake)
        requires { (plan : Plan) × (past : List Entry) × StandsFor plan past self.old }
        ensures { (plan : Plan) (past : List Entry) → StandsFor plan past self.old → RestGives plan past call self.old self.new result.0 result.1 }
    {
        if !self.core.fits(call) {
            return (Err(Unrested::Misuse), Wake::Nobody);
        }
        let seat = call.seat();
        if self.need_not_wait(call) {
            note_seat(&mut self.notes, seat, Note::Awake);
            return (Err(Unrested::HasCome), self.rouse());
        }
        note_seat(&mut self.notes, seat, Note::Resting);
        self.some_rest = true;
        self.wish = wish_after(call, self.wish);
        (Ok(Rest::new(seat)), self.rouse())
    }

    // Whether what a call asks for has come, or never will.
    fn need_not_wait(&self, call: Call) -> bool
        requires { (plan : Plan) × (past : List Entry) × StandsFor plan past self.now }
        ensures { (plan : Plan) (past : List Entry) → StandsFor plan past self.now
            → result ≡ (is_done (phase_of past) || has_come plan past call) }
    {
        self.core.is_done() || self.core.has_come(call)
    }
}

// What the driver rests for once the call's seat rests for it.
fn wish_after(call: Call, wish: Call) -> Call
    ensures { result ≡ wish_after call wish }
{
    if call.seat() == 0 { call } else { wish }
}

// Notes a seat so, if there is that seat.
fn note_seat(notes: &mut Vec<Note>, seat: SeatNo, note: Note)
    ensures { notes.new.items ≡ slice_set notes.old.items seat note }
{
    if let Some(place) = notes.get_mut(seat as usize) {
        *place = note;
    }
}
