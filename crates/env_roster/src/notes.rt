ghost use Rattle.std.specs.Prelude.{◌≡◌, ◌<◌, ◌≤◌, ◌+◌, false, length, replicate, slice_set, IfOk, IfSome, IfNone};
ghost use Rattle.env_roster.specs.Wakes.{HasWorkAt, IsHandedOn, IsPick, NobodyHasWork, NobodyRests, NoWakeIsLost, after_wake, has_own, has_to_do, has_work, wakes_well};
ghost use Rattle.env_roster.specs.declared.note.Note.TheVariants as kinds;

use crate::note::{Note, Rest, Wake, Woken};
use env_core::Env;
use std::alloc::{AllocError, Global};
use std::marker::Model;
use task_base::SeatNo;
use task_body::TaskBody;

/// What is noted of each seat. Whoever holds the turn has it, and changes it.
///
/// Contracts see the note of each seat.
#[derive(Drop)]
pub struct Notes {
    notes: Vec<Note>,
    /// False only where nobody rests, so that there it costs nothing to see whom to wake.
    some_rest: bool,
}

impl Model for Notes {
    ghost use Rattle.std.specs.Prelude.{List};
    ghost use Rattle.env_roster.specs.Wakes.{AreNotes};
    ghost use Rattle.env_roster.specs.declared.note.Note.{Note as NoteView};

    ghost Value = { List NoteView };

    ghost view = { λ n. n.notes.items };

    ghost invariant = { λ n. AreNotes n.notes.items n.some_rest };
}

impl Notes {
    /// The notes of the driver and so many workers, all of whom are awake. The error is want of memory.
    pub fn new(alloc: Global, workers: SeatNo) -> Result<Notes, AllocError>
        ensures { IfOk result (λ notes. notes ≡ replicate (workers + 1) kinds.Awake) }
    {
        let notes = vec![in alloc; Note::Awake; workers as usize + 1]?;
        Ok(Notes {
            notes,
            some_rest: false,
        })
    }

    /// The seat holds the turn.
    pub fn awake(&mut self, seat: SeatNo)
        requires { seat < length self.old }
        ensures { self.new ≡ slice_set self.old seat kinds.Awake }
    {
        let note = &mut self.notes[seat as usize];
        // Who only reads leaves what other processors have in their caches.
        if *note != Note::Awake {
            *note = Note::Awake;
        }
    }

    /// The seat found nothing to do, and rests from now on. Who has the answer may sleep once it has given the turn back.
    pub fn rest(&mut self, seat: SeatNo) -> Rest
        requires { seat < length self.old }
        ensures noted { self.new ≡ slice_set self.old seat kinds.Resting }
        ensures own { result ≡ seat }
    {
        self.notes[seat as usize] = Note::Resting;
        self.some_rest = true;
        Rest::new(seat)
    }

    /// Sees whom to wake, and notes it: everyone where the script is finished; else a seat that rests and has work of its own,
    /// at once; else, unless a seat that was woken before has something to do, the first that rests and has.
    pub(crate) fn rouse<B: TaskBody>(&mut self, env: &Env<B>) -> Wake
        requires seats { length self.old ≡ env.now.script.workers + 1 }
        ensures kept { NoWakeIsLost env.now.script env.now.history self.new }
        ensures noted { self.new ≡ after_wake result self.old }
        ensures needed { wakes_well env.now.script env.now.history self.old result }
    {
        if !self.some_rest {
            return Wake::Nobody;
        }
        if env.is_finished() {
            self.notes.fill(Note::Woken);
            self.some_rest = false;
            return Wake::Everyone;
        }
        let Some(seat) = self.pick(env) else {
            return Wake::Nobody;
        };
        self.notes[seat as usize] = Note::Woken;
        self.some_rest = self.has_resting();
        Wake::One(Woken::new(seat))
    }

    // Whom to wake while the script goes on.
    fn pick<B: TaskBody>(&self, env: &Env<B>) -> Option<SeatNo>
        requires seats { length self.now ≡ env.now.script.workers + 1 }
        ensures some { IfSome result (IsPick env.now.script env.now.history self.now) }
        ensures all { IfNone result (IsHandedOn (has_to_do env.now.script env.now.history) self.now) }
        ensures own { IfNone result (IsHandedOn (has_own env.now.script env.now.history) self.now) }
    {
        if !env.is_any_ready() {
            return self.driver(env);
        }
        if let Some(seat) = self.find(env, Note::Resting, true) {
            return Some(seat);
        }
        if self.find(env, Note::Woken, false).is_some() {
            return None;
        }
        self.find(env, Note::Resting, false)
    }

    // The driver, where it rests and may go on.
    fn driver<B: TaskBody>(&self, env: &Env<B>) -> Option<SeatNo>
        requires seats { length self.now ≡ env.now.script.workers + 1 }
        ensures some { IfSome result (HasWorkAt (has_to_do env.now.script env.now.history) self.now kinds.Resting) }
        ensures none { IfNone result (HasWorkAt (has_to_do env.now.script env.now.history) self.now kinds.Resting 0 → ⊥) }
    {
        if self.notes[0] == Note::Resting && env.may_go_on() {
            return Some(0);
        }
        None
    }

    // The first seat with this note that has something to do; of its own, where that is asked.
    fn find<B: TaskBody>(&self, env: &Env<B>, note: Note, own: bool) -> Option<SeatNo>
        requires seats { length self.now ≡ env.now.script.workers + 1 }
        ensures found { IfSome result (HasWorkAt (has_work env.now.script env.now.history own) self.now note) }
        ensures none { IfNone result (NobodyHasWork (has_work env.now.script env.now.history own) self.now note) }
    {
        for seat in 0..self.notes.len() {
            if self.notes[seat] == note && has_work(env, seat as SeatNo, own) {
                return Some(seat as SeatNo);
            }
        }
        None
    }

    // Whether somebody rests.
    fn has_resting(&self) -> bool
        ensures { result ≡ false → NobodyRests self.now }
    {
        for note in self.notes.as_slice() {
            if *note == Note::Resting {
                return true;
            }
        }
        false
    }
}

// Whether a seat has something to do; of its own, where that is asked.
fn has_work<B: TaskBody>(env: &Env<B>, seat: SeatNo, own: bool) -> bool
    requires { seat ≤ env.now.script.workers }
    ensures { result ≡ has_work env.now.script env.now.history own seat }
{
    if seat == 0 {
        return !own && env.may_go_on();
    }
    if own {
        return env.has_own_work(seat);
    }
    env.has_work(seat)
}
