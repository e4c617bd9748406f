ghost use Rattle.std.specs.Prelude.{◌≡◌, ◌<◌, ◌+◌, ◌/◌, [], length, true, false, IfOk, IfErr, IfSome, IfNone, IsSome};
ghost use Rattle.hist_model.specs.Views.{IsPrefix};
ghost use Rattle.turn_table.specs.Plays.{Looked, FrontRead};
ghost use Rattle.turn_table.specs.Shutdowns.{IsShutdownAt, has_shutdown};
ghost use Rattle.turn_table.specs.Views.{key_of};

use crate::rule::{Deal, Draw, Law, Look, ReadFront};
use crate::seat::{Seat, Token};
use crate::view::View;
use atomic_table::{Refused, Table};
use hist_model::Chronicle;
use std::alloc::{AllocError, Global};
use std::marker::Model;
use std::snapshot::Snapshot;
use task_base::SeatNo;

mod close;
mod turns;

/// One history under a turn that many seats take. It may lie in an `Arc`, or be borrowed by the threads of a scope.
///
/// Contracts see which turnstile it is, and the script that it began with.
#[derive(Drop)]
pub struct Turnstile<V: Chronicle> {
    table: Table<Option<V>, View, Snapshot<V>, Law<V>, Global>,
}

impl<V: Chronicle> Model for Turnstile<V> {
    ghost use Rattle.std.specs.Prelude.{◌≡◌, true};
    ghost use Rattle.turn_table.specs.Seats.{TurnKey};

    ghost Value = { TurnKey };

    ghost view = { λ t. record { table = t.table.shared.table_id; basis = V.basis t.table.shared.key.value; stands = true } };

    ghost invariant = { λ t. (t.table.shared.table_id.words ≡ 3) × (t.table.shared.table_id.slots ≡ 1) };
}

impl<V: Chronicle> Turnstile<V> {
    /// A turnstile over a value whose history is empty, and seat 0. It gives the value back where there is no memory.
    pub fn new(alloc: Global, value: V) -> Result<(Turnstile<V>, Seat<V>), (V, AllocError)>
        requires empty { V.history value ≡ [] }
        ensures basis { IfOk result (λ made. made.0.basis ≡ V.basis value) }
        ensures stands { IfOk result (λ made. made.0.stands ≡ true) }
        ensures seat { IfOk result (λ made. made.1 ≡ record { of = made.0; number = 0; seen = []; mine = []; made = 1; loads = 0; last = 0; turns = 0; told = false }) }
        ensures handed_back { IfErr result (λ refused. refused.0 ≡ value) }
    {
        let about = Snapshot::of(&value);
        let Ok(mut slots) = Vec::with_capacity(alloc, 1) else {
            return Err((value, AllocError));
        };
        slots.push_reserved(Some(value));
        match Table::new(alloc, &[0, 1, 0], slots, &about) {
            Ok((table, token)) => Ok((Turnstile { table }, Seat { token, number: 0 })),
            Err(Refused { mut slots }) => {
                let Some(Some(value)) = slots.pop() else {
                    unreachable!()
                };
                slots.destroy_empty();
                Err((value, AllocError))
            }
        }
    }

    /// Gives the next number to a second seat, which sees what the first sees and has no entries.
    pub fn split(&self, seat: Seat<V>) -> (Seat<V>, Seat<V>)
        requires of { seat.of ≡ self.now }
        requires first { seat.number ≡ 0 }
        requires room { seat.made < 4294967295 }
        ensures first { result.0 ≡ record seat { made = seat.made + 1 } }
        ensures second { result.1 ≡ record { of = seat.of; number = seat.made; seen = seat.seen; mine = []; made = 0; loads = 0; last = 0; turns = 0; told = seat.told } }
    {
        let Seat { mut token, number } = seat;
        let shared = &self.table.shared;
        let drawn = shared.fetch_add::<Draw>(&mut token, 1, 1);
        let second = shared.split_seat::<Deal>(&mut token);
        (
            Seat { token, number },
            Seat {
                token: second,
                number: drawn as SeatNo,
            },
        )
    }

    /// How many entries the history has. It waits for nobody, also while another seat holds the turn.
    pub fn look(&self, seat: &mut Seat<V>) -> u64
        requires of { seat.old.of ≡ self.now }
        ensures seat { seat.new ≡ record seat.old { seen = seat.new.seen; loads = seat.old.loads + 1; last = seat.new.last } }
        ensures begins { IsPrefix seat.old.seen seat.new.seen }
        ensures last { result ≡ seat.new.last / 2 }
        ensures count { length seat.new.seen ≡ result }
    {
        self.load_count(&mut seat.token) / 2
    }

    /// The place of a shutdown in the history, or `None` where the word that was read tells of none. It waits for
    /// nobody.
    pub fn front(&self, seat: &mut Seat<V>) -> Option<u64>
        requires of { seat.old.of ≡ self.now }
        ensures seat { seat.new ≡ record seat.old { seen = seat.new.seen; loads = seat.old.loads + 1; last = seat.new.last; told = seat.new.told } }
        ensures begins { IsPrefix seat.old.seen seat.new.seen }
        ensures none { IfNone result ((seat.new.last ≡ 0) × (seat.new.seen ≡ seat.old.seen) × (seat.new.told ≡ false)) }
        ensures place { IfSome result (λ place. (seat.new.last ≡ place + 1) × (seat.new.told ≡ true) × IsShutdownAt seat.new.seen place) }
        ensures told { seat.old.told ≡ true → IsSome result }
        ensures own { has_shutdown seat.old.mine ≡ true → IsSome result }
    {
        self.load_front(&mut seat.token).checked_sub(1)
    }

    // A load of the first word.
    fn load_count(&self, token: &mut Token<V>) -> u64
        requires of { key_of token.old.table_id token.old.me.0 ≡ self.now }
        requires idle { token.old.me.0.holds ≡ false }
        ensures token { (token.new.table_id ≡ token.old.table_id) × (token.new.id ≡ token.old.id) × (token.new.me.1 ≡ token.old.me.1) }
        ensures view { Looked token.old.me.0 result token.new.me.0 }
    {
        self.table.shared.load::<Look>(token, 0)
    }

    // A load of the third word.
    fn load_front(&self, token: &mut Token<V>) -> u64
        requires of { key_of token.old.table_id token.old.me.0 ≡ self.now }
        requires idle { token.old.me.0.holds ≡ false }
        ensures token { (token.new.table_id ≡ token.old.table_id) × (token.new.id ≡ token.old.id) × (token.new.me.1 ≡ token.old.me.1) }
        ensures view { FrontRead token.old.me.0 result token.new.me.0 }
    {
        self.table.shared.load::<ReadFront>(token, 2)
    }
}
