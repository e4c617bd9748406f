//! Taking the turn and giving it back.
ghost use Rattle.std.specs.Prelude.{◌≡◌, ◌<◌, ◌+◌, ◌/◌, ◌^◌, ◌++◌, ◌∷◌, [], length, true, false, Some, None};
ghost use Rattle.task_base.specs.declared.entry.Entry.{Entry};
ghost use Rattle.hist_model.specs.Legal.{IsLegal};
ghost use Rattle.hist_model.specs.Views.{IsPrefix, own_entries};
ghost use Rattle.turn_table.specs.Plays.{Grabbed};
ghost use Rattle.turn_table.specs.Seats.{Reseated, EntersOne, EntersShutdown};
ghost use Rattle.turn_table.specs.Shutdowns.{IsShutdownAt};
ghost use Rattle.turn_table.specs.Views.{key_of};

use super::Turnstile;
use crate::holding::Holding;
use crate::rule::{BackOut, Enter, Grab, SetFront};
use crate::seat::{Seat, Token};
use crossbeam_utils::Backoff;
use hist_model::Chronicle;
use std::sync::Wait;

/// How often a seat waits a little, longer each time, between two tries for the turn. Meanwhile the seat that had it last may
/// have it again, with all that it needs in its processor's cache.
const WAITS: u32 = 6;

impl<V: Chronicle> Turnstile<V> {
    // One try for the turn. A lost try changes nothing.
    fn try_grab(&self, token: &mut Token<V>) -> bool
        requires of { key_of token.old.table_id token.old.me.0 ≡ self.now }
        requires idle { (token.old.me.1 ≡ []) × (token.old.me.0.holds ≡ false) }
        ensures token { (token.new.table_id ≡ token.old.table_id) × (token.new.id ≡ token.old.id) }
        ensures won { result ≡ true → Grabbed V.history V.basis token.old.me token.new.me }
        ensures lost { result ≡ false → token.new.me ≡ token.old.me }
    {
        let shared = &self.table.shared;
        let word = shared.peek(0);
        if word % 2 == 1 {
            return false;
        }
        shared.compare_exchange::<Grab>(token, 0, word, word + 1) == word
    }

    // Waits until the turn is taken.
    fn grab<R: Wait>(&self, rt: &R, token: &mut Token<V>)
        requires of { key_of token.old.table_id token.old.me.0 ≡ self.now }
        requires idle { (token.old.me.1 ≡ []) × (token.old.me.0.holds ≡ false) }
        ensures token { (token.new.table_id ≡ token.old.table_id) × (token.new.id ≡ token.old.id) }
        ensures won { Grabbed V.history V.basis token.old.me token.new.me }
    {
        let backoff = Backoff::new();
        for _ in rt.forever() {
            if self.try_grab(token) {
                return;
            }
            for _ in 0..WAITS {
                backoff.snooze();
            }
        }
        unreachable!()
    }

    // The value out of the slot, which the holder alone moves.
    fn take_out(&self, token: &mut Token<V>) -> V
        requires of { key_of token.old.table_id token.old.me.0 ≡ self.now }
        requires full { (value : V) × (token.old.me.1 ≡ (0, Some value) ∷ []) }
        ensures value { token.old.me.1 ≡ (0, Some result) ∷ [] }
        ensures token { (token.new.table_id ≡ token.old.table_id) × (token.new.id ≡ token.old.id) × (token.new.me ≡ (token.old.me.0, (0, None) ∷ [])) }
    {
        self.table.shared.exchange(token, 0, None).unwrap()
    }

    // The value back into the slot.
    fn put_in(&self, token: &mut Token<V>, value: V)
        requires of { key_of token.old.table_id token.old.me.0 ≡ self.now }
        requires empty { token.old.me.1 ≡ (0, None) ∷ [] }
        ensures token { (token.new.table_id ≡ token.old.table_id) × (token.new.id ≡ token.old.id) × (token.new.me ≡ (token.old.me.0, (0, Some value) ∷ [])) }
    {
        let found = self.table.shared.exchange(token, 0, Some(value));
        let None = found else { unreachable!() };
    }

    /// Takes the turn, and with it the value. It waits while another seat holds the turn.
    pub fn turn<R: Wait>(&self, rt: &R, seat: Seat<V>) -> (V, Holding<V>)
        requires of { seat.of ≡ self.now }
        ensures holding { Reseated seat (V.history result.0) result.1 }
        ensures mine { result.1.mine ≡ seat.mine }
        ensures turns { result.1.turns ≡ seat.turns + 1 }
        ensures told { result.1.told ≡ seat.told }
        ensures basis { V.basis result.0 ≡ self.now.basis }
        ensures begins { IsPrefix seat.seen (V.history result.0) }
        ensures legal { IsLegal self.now.basis (V.history result.0) }
        ensures own { own_entries seat.number (V.history result.0) ≡ seat.mine }
        ensures bound { length (V.history result.0) < 2 ^ 32 }
    {
        let Seat { mut token, number } = seat;
        self.grab(rt, &mut token);
        let value = self.take_out(&mut token);
        (value, Holding { token, number })
    }

    // The value back into the slot, with one more entry, and the turn given back. It gives the place of the entry.
    fn enter_value(&self, value: V, token: &mut Token<V>) -> u64
        requires of { key_of token.old.table_id token.old.me.0 ≡ self.now }
        requires held { (token.old.me.1 ≡ (0, None) ∷ []) × (token.old.me.0.holds ≡ true) }
        requires basis { V.basis value ≡ self.now.basis }
        requires one { EntersOne self.now.basis token.old.me.0.number token.old.me.0.seen (V.history value) }
        requires room { length (V.history value) < 2 ^ 32 }
        ensures place { result ≡ length token.old.me.0.seen }
        ensures below { result < 2 ^ 32 }
        ensures token { (token.new.table_id ≡ token.old.table_id) × (token.new.id ≡ token.old.id) × (token.new.me.1 ≡ []) }
        ensures view { token.new.me.0 ≡ record token.old.me.0 { seen = V.history value; mine = own_entries token.old.me.0.number (V.history value); holds = false } }
    {
        self.put_in(token, value);
        self.table.shared.fetch_add::<Enter>(token, 0, 1) / 2
    }

    // Sets the place of a shutdown that was seen.
    fn set_front(&self, token: &mut Token<V>, place: u64)
        requires of { key_of token.old.table_id token.old.me.0 ≡ self.now }
        requires idle { token.old.me.0.holds ≡ false }
        requires stands { IsShutdownAt token.old.me.0.seen place }
        requires room { place < 2 ^ 32 }
        ensures token { (token.new.table_id ≡ token.old.table_id) × (token.new.id ≡ token.old.id) × (token.new.me.1 ≡ token.old.me.1) }
        ensures view { token.new.me.0 ≡ record token.old.me.0 { told = true } }
    {
        self.table
            .shared
            .compare_exchange::<SetFront>(token, 2, 0, place + 1);
    }

    /// Gives the turn back, with a value whose history has one more entry.
    pub fn enter(&self, value: V, holding: Holding<V>) -> Seat<V>
        requires of { holding.of ≡ self.now }
        requires basis { V.basis value ≡ self.now.basis }
        requires one { EntersOne self.now.basis holding.number holding.seen (V.history value) }
        requires kind { EntersShutdown false holding.seen (V.history value) }
        requires room { length (V.history value) < 2 ^ 32 }
        ensures seat { Reseated holding (V.history value) result }
        ensures turns { result.turns ≡ holding.turns }
        ensures told { result.told ≡ holding.told }
        ensures mine { (e : Entry) → V.history value ≡ holding.seen ++ e ∷ [] → result.mine ≡ holding.mine ++ e ∷ [] }
        ensures own { own_entries result.number result.seen ≡ result.mine }
        ensures legal { IsLegal self.now.basis result.seen }
    {
        let Holding { mut token, number } = holding;
        self.enter_value(value, &mut token);
        Seat { token, number }
    }

    /// Gives the turn back, with a value whose history has one more entry, which is a shutdown. It also sets the
    /// shutdown's place, so that every seat finds it without the turn.
    pub fn enter_shutdown(&self, value: V, holding: Holding<V>) -> Seat<V>
        requires of { holding.of ≡ self.now }
        requires basis { V.basis value ≡ self.now.basis }
        requires one { EntersOne self.now.basis holding.number holding.seen (V.history value) }
        requires kind { EntersShutdown true holding.seen (V.history value) }
        requires room { length (V.history value) < 2 ^ 32 }
        ensures seat { Reseated holding (V.history value) result }
        ensures turns { result.turns ≡ holding.turns }
        ensures told { result.told ≡ true }
        ensures mine { (e : Entry) → V.history value ≡ holding.seen ++ e ∷ [] → result.mine ≡ holding.mine ++ e ∷ [] }
        ensures own { own_entries result.number result.seen ≡ result.mine }
        ensures legal { IsLegal self.now.basis result.seen }
    {
        let Holding { mut token, number } = holding;
        let place = self.enter_value(value, &mut token);
        self.set_front(&mut token, place);
        Seat { token, number }
    }

    /// Gives the turn back, with a value whose history is as it was.
    pub fn back(&self, value: V, holding: Holding<V>) -> Seat<V>
        requires of { holding.of ≡ self.now }
        requires basis { V.basis value ≡ self.now.basis }
        requires history { V.history value ≡ holding.seen }
        ensures seat { Reseated holding (V.history value) result }
        ensures turns { result.turns ≡ holding.turns }
        ensures told { result.told ≡ holding.told }
        ensures mine { result.mine ≡ holding.mine }
        ensures own { own_entries result.number result.seen ≡ result.mine }
        ensures legal { IsLegal self.now.basis result.seen }
    {
        let Holding { mut token, number } = holding;
        self.put_in(&mut token, value);
        self.table.shared.fetch_sub::<BackOut>(&mut token, 0, 1);
        Seat { token, number }
    }
}
