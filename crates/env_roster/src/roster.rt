ghost use Rattle.std.specs.Prelude.{◌≡◌, ◌+◌, length, replicate, IfOk};
ghost use Rattle.env_roster.specs.Wakes.{NoWakeIsLost, after_wake, names_seats, wakes_well};
ghost use Rattle.env_roster.specs.declared.note.Note.TheVariants as kinds;

use crate::note::Wake;
use crate::notes::Notes;
use env_core::Env;
use hist_model::Chronicle;
use std::alloc::{AllocError, Global};
use std::marker::Model;
use task_base::SeatNo;
use task_body::TaskBody;

/// An environment with the notes of its seats, as it stands while nobody holds the turn.
///
/// Contracts see both. No wake is lost (`no_wake_is_lost`).
pub struct Roster<B: TaskBody> {
    env: Box<Env<B>>,
    notes: Notes,
}

impl<B: TaskBody> Model for Roster<B> {
    ghost use Rattle.env_roster.specs.Wakes.{RosterView, IsKept};

    ghost Value = { RosterView };

    ghost view = { λ r. record { env = r.env.value; notes = r.notes } };

    ghost invariant = { λ r. IsKept r.env.value r.notes };
}

impl<B: TaskBody> Drop for Roster<B> {
    /// A crate that drops a roster, or what has one inside, goes by this code, and proves nothing of what lies in it.
    fn drop(self) {
        let Roster { env: _, notes: _ } = self;
    }
}

impl<B: TaskBody> Chronicle for Roster<B> {
    ghost history = { λ r. r.env.history };

    ghost basis = { λ r. r.env.script };
}

impl<B: TaskBody> Roster<B> {
    /// An environment of so many workers, all of whose seats are awake. The error is want of memory.
    pub fn new(alloc: Global, env: Env<B>, workers: SeatNo) -> Result<Roster<B>, AllocError>
        requires { workers ≡ env.script.workers }
        ensures env { IfOk result (λ roster. roster.env ≡ env) }
        ensures awake { IfOk result (λ roster. roster.notes ≡ replicate (workers + 1) kinds.Awake) }
    {
        let notes = Notes::new(alloc, workers)?;
        let env = Box::new(alloc, env)?;
        Ok(Roster { env, notes })
    }

    /// The environment and the notes, for who has taken the turn.
    pub fn open(self) -> (Box<Env<B>>, Notes)
        ensures env { result.0.value ≡ self.env }
        ensures notes { result.1 ≡ self.notes }
        ensures seats { length result.1 ≡ self.env.script.workers + 1 }
    {
        let Roster { env, notes } = self;
        (env, notes)
    }

    /// Puts both together before the turn is given back, and says whom to wake then.
    pub fn shut(env: Box<Env<B>>, notes: Notes) -> (Roster<B>, Wake)
        requires seats { length notes ≡ env.value.script.workers + 1 }
        ensures env { result.0.env ≡ env.value }
        ensures noted { result.0.notes ≡ after_wake result.1 notes }
        ensures needed { wakes_well env.value.script env.value.history notes result.1 }
        ensures known { names_seats env.value.script.workers result.1 }
    {
        let mut notes = notes;
        let wake = notes.rouse(&env);
        (Roster { env, notes }, wake)
    }

    /// The environment, without the notes.
    pub fn into_env(self) -> Env<B>
        ensures { result ≡ self.env }
    {
        let Roster { env, notes: _ } = self;
        Box::into_inner(env)
    }
}

/// No wake is lost. Whatever stands under the turn while nobody holds it: where a seat that rests has something to do, a seat
/// that has was woken and hasn't held the turn since, or is about to be woken by who held the turn last; the same holds of work
/// that only one seat may take; and where the script is finished nobody rests. The driver has something to do where what it
/// waits for has come, a worker where it may take a source. Nothing is claimed of the sleep itself, nor of when a seat that was
/// woken runs.
pub fn no_wake_is_lost<B: TaskBody>(roster: &Roster<B>)
    ensures { NoWakeIsLost roster.now.env.script roster.now.env.history roster.now.notes }
{
    let _env = &roster.env;
}
