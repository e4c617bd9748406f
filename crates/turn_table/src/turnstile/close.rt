//! The close.
ghost use Rattle.std.specs.Prelude.{◌≡◌, ◌<◌, ◌+◌, ◌^◌, ◌∷◌, [], length, map, false, Some};
ghost use Rattle.std.specs.List.{AllByRecursion};
ghost use Rattle.hist_model.specs.Legal.{IsLegal};
ghost use Rattle.turn_table.specs.Closing.{Closing};
ghost use Rattle.turn_table.specs.Seats.{Rising, Tells, closed};
ghost use Rattle.turn_table.specs.Views.{key_of, kept_seat};

use super::Turnstile;
use crate::rule::{CutOff, Keep};
use crate::seat::{Seat, Token};
use hist_model::Chronicle;
use std::snapshot::Snapshot;
use task_base::Rows;

impl<V: Chronicle> Turnstile<V> {
    // Seat 0 keeps what another seat knows.
    fn join(&self, first: &mut Token<V>, other: Seat<V>)
        requires of { key_of first.old.table_id first.old.me.0 ≡ self.now }
        requires idle { first.old.me.0.holds ≡ false }
        requires other { other.of ≡ self.now }
        ensures token { (first.new.table_id ≡ first.old.table_id) × (first.new.me.1 ≡ first.old.me.1) }
        ensures view { first.new.me.0 ≡ record first.old.me.0 { kept = kept_seat other ∷ first.old.me.0.kept } }
    {
        let Seat { token, number: _ } = other;
        self.table.shared.join_seat::<Keep>(first, token);
    }

    // Seat 0 keeps what all other seats know.
    fn join_all(&self, first: &mut Token<V>, mut rest: Rows<Seat<V>>)
        requires of { key_of first.old.table_id first.old.me.0 ≡ self.now }
        requires idle { (first.old.me.0.holds ≡ false) × (first.old.me.0.kept ≡ []) }
        requires rest { Rising self.now 1 rest.items }
        ensures token { (first.new.table_id ≡ first.old.table_id) × (first.new.me.1 ≡ first.old.me.1) }
        ensures view { first.new.me.0 ≡ record first.old.me.0 { kept = map kept_seat rest.items } }
    {
        while let Some(other) = rest.pop() {
            self.join(first, other);
        }
    }

    // The value out of the table, which is freed.
    fn into_value(self, first: Token<V>, rest: Snapshot<Rows<Seat<V>>>) -> V
        requires of { key_of first.table_id first.me.0 ≡ self }
        requires first { (first.me.0.holds ≡ false) × (first.me.0.number ≡ 0) }
        requires rest { Rising self 1 rest.value.items }
        requires all { first.me.0.made ≡ length rest.value.items + 1 }
        requires kept { first.me.0.kept ≡ map kept_seat rest.value.items }
        ensures { Closing V.history V.basis self.basis first.me.0 rest.value.items (Some result) }
    {
        let Turnstile { table } = self;
        let mut closed = table.close_with(first);
        let value = closed.take(0).unwrap();
        closed.free();
        value
    }

    /// Closes the turnstile, once all its seats came back, and gives the value that stood under the turn. The seat
    /// that comes back with it is of no turnstile any more: it says what seat 0 knew.
    pub fn close(self, first: Seat<V>, rest: Rows<Seat<V>>) -> (V, Seat<V>)
        requires of { first.of ≡ self }
        requires first { first.number ≡ 0 }
        requires rest { Rising self 1 rest.items }
        requires all { first.made ≡ length rest.items + 1 }
        ensures basis { V.basis result.0 ≡ self.basis }
        ensures legal { IsLegal self.basis (V.history result.0) }
        ensures bound { length (V.history result.0) < 2 ^ 32 }
        ensures first { Tells (V.history result.0) first }
        ensures rest { AllByRecursion (Tells (V.history result.0)) rest.items }
        ensures seat { result.1 ≡ record first { of = closed self } }
    {
        let Seat { mut token, number } = first;
        let all = Snapshot::of(&rest);
        self.join_all(&mut token, rest);
        let spent = self.table.shared.split_seat::<CutOff>(&mut token);
        (
            self.into_value(token, all),
            Seat {
                token: spent,
                number,
            },
        )
    }
}
