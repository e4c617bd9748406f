//! One hold of the turn, by a seat at a desk. Whoever is to be woken by it is woken once the turn is given back.
ghost use Rattle.std.specs.Prelude.{◌≡◌, true, false, is_some, IfSome};
ghost use Rattle.hist_model.specs.Views.{own_entries};
ghost use Rattle.env_crew.specs.Desk.{Holds, as_seen};
ghost use Rattle.env_roster.specs.Wakes.{names_seats};
ghost use Rattle.env_shared.specs.Holds.{HasEntered, HasTurn, found};
ghost use Rattle.env_shared.specs.Sits.{IsSat, Sits, desk_of, sitter_there};

use crate::shared::Shared;
use crate::sitter::Sitter;
use env_core::Env;
use env_roster::{Notes, Rest, Roster, Wake};
use std::marker::Model;
use std::snapshot::Snapshot;
use std::sync::Wait;
use task_base::SeatNo;
use task_body::TaskBody;
use turn_table::Holding;

/// A turn that a seat holds, which is noted as awake, or as one that will rest. It is spent where the turn is given back.
///
/// Contracts see the shared environment, the seat at the desk as it was before, the history that it found, and whether the
/// seat is noted as one that will rest.
pub struct Hold<'a, B: TaskBody> {
    shared: &'a Shared<B>,
    number: SeatNo,
    holding: Holding<Roster<B>>,
    notes: Notes,
    rest: Option<Rest>,
    sitter: Snapshot<Sitter<B>>,
}

impl<'a, B: TaskBody> Model for Hold<'a, B> {
    ghost use Rattle.std.specs.Prelude.{◌≡◌, ◌+◌, length, is_some};
    ghost use Rattle.env_shared.specs.Holds.{HoldView, HasTurn, IsNoted};

    ghost Value = { HoldView };

    ghost view = { λ h. record { of = h.shared.now; sitter = h.sitter.value; past = h.holding.seen; rests = is_some h.rest } };

    ghost invariant = { λ h. (h.sitter.value.seat.number ≡ h.number) × HasTurn h.shared.now h.sitter.value.seat h.holding
        × (length h.notes ≡ h.shared.now.basis.workers + 1) × IsNoted h.number h.notes h.rest };
}

impl<'a, B: TaskBody> Hold<'a, B> {
    /// Takes the turn for a seat, and gives the environment.
    pub fn begin<R: Wait>(
        rt: &R,
        shared: &'a Shared<B>,
        place: &mut Option<Sitter<B>>,
    ) -> (Box<Env<B>>, Hold<'a, B>)
        requires { IsSat shared.now place.old }
        ensures hold { result.1 ≡ record { of = shared.now; sitter = sitter_there shared.now place.old; past = result.0.value.history; rests = false } }
        ensures found { result.0.value ≡ found result.1 }
        ensures own { let seat = (sitter_there shared.now place.old).seat in own_entries seat.number result.0.value.history ≡ own_entries seat.number seat.seen }
    {
        let sitter = place.take().unwrap();
        let about = Snapshot::of(&sitter);
        let Sitter { seat, rest: _ } = sitter;
        let number = seat.number();
        let (roster, holding) = shared.turnstile.turn(rt, seat);
        let (env, mut notes) = roster.open();
        notes.awake(number);
        (
            env,
            Hold {
                shared,
                number,
                holding,
                notes,
                rest: None,
                sitter: about,
            },
        )
    }

    /// The seat's number.
    pub fn number(&self) -> SeatNo
        ensures { result ≡ self.now.sitter.seat.number }
    {
        self.number
    }

    // What is given back under the turn, with the shared environment, the turn, whom to wake then, and what the seat may sleep for.
    fn shut(
        self,
        env: Box<Env<B>>,
    ) -> (
        &'a Shared<B>,
        Holding<Roster<B>>,
        Roster<B>,
        Wake,
        Option<Rest>,
    )
        requires { env.value.script ≡ self.of.basis }
        ensures shared { result.0.now ≡ self.entry.of }
        ensures turn { HasTurn self.entry.of self.entry.sitter.seat result.1 }
        ensures found { result.1.seen ≡ self.entry.past }
        ensures env { result.2.env ≡ env.value }
        ensures known { names_seats self.entry.of.basis.workers result.3 }
        ensures rests { is_some result.4 ≡ self.entry.rests }
        ensures own { IfSome result.4 (λ noted. noted ≡ self.entry.sitter.seat.number) }
    {
        let Hold {
            shared,
            number: _,
            holding,
            notes,
            rest,
            sitter: _,
        } = self;
        let (roster, wake) = Roster::shut(env, notes);
        (shared, holding, roster, wake, rest)
    }

    /// Gives the turn back, with one more entry.
    pub fn enter(self, env: Box<Env<B>>) -> Sitter<B>
        requires { HasEntered false self env.value }
        ensures sits { Sits self.entry.of result.seat }
        ensures holds { Holds (desk_of self.entry.sitter) self.entry.past (desk_of result) }
        ensures seen { as_seen (desk_of result) ≡ env.value }
        ensures rests { result.rests ≡ self.entry.rests }
    {
        let (shared, holding, roster, wake, rest) = self.shut(env);
        let seat = shared.turnstile.enter(roster, holding);
        shared.wake(wake);
        Sitter { seat, rest }
    }

    /// Gives the turn back, with one more entry, which is a shutdown.
    pub fn enter_shutdown(self, env: Box<Env<B>>) -> Sitter<B>
        requires { HasEntered true self env.value }
        ensures sits { Sits self.entry.of result.seat }
        ensures holds { Holds (desk_of self.entry.sitter) self.entry.past (desk_of result) }
        ensures seen { as_seen (desk_of result) ≡ env.value }
        ensures rests { result.rests ≡ self.entry.rests }
        ensures told { result.seat.told ≡ true }
    {
        let (shared, holding, roster, wake, rest) = self.shut(env);
        let seat = shared.turnstile.enter_shutdown(roster, holding);
        shared.wake(wake);
        Sitter { seat, rest }
    }

    /// Gives the turn back as it was found.
    pub fn back(self, env: Box<Env<B>>) -> Sitter<B>
        requires { env.value ≡ found self }
        ensures sits { Sits self.entry.of result.seat }
        ensures holds { Holds (desk_of self.entry.sitter) self.entry.past (desk_of result) }
        ensures seen { as_seen (desk_of result) ≡ env.value }
        ensures rests { result.rests ≡ self.entry.rests }
    {
        let (shared, holding, roster, wake, rest) = self.shut(env);
        let seat = shared.turnstile.back(roster, holding);
        shared.wake(wake);
        Sitter { seat, rest }
    }

    /// Gives the turn back as it was found, with a note that the seat rests.
    #[tactic(auto, using(crate::proofs::Notes::has_note))]
    pub fn rest(self, env: Box<Env<B>>) -> Sitter<B>
        requires { env.value ≡ found self }
        ensures sits { Sits self.entry.of result.seat }
        ensures holds { Holds (desk_of self.entry.sitter) self.entry.past (desk_of result) }
        ensures seen { as_seen (desk_of result) ≡ env.value }
        ensures rests { result.rests ≡ true }
    {
        let mut hold = self;
        let number = hold.number;
        hold.rest = Some(hold.notes.rest(number));
        hold.back(env)
    }
}
