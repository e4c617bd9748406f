ghost use Rattle.std.specs.Prelude.{◌≡◌};
ghost use Rattle.hist_model.specs.Views.{own_entries};

use crate::view::View;
use std::marker::Model;
use task_base::SeatNo;

/// What a seat steps with: a seat of the table, with its view.
pub(crate) type Token<V> = atomic_table::Seat<Option<V>, View>;

/// A place at a turnstile, from which the turn is taken. A thread has a seat of its own.
///
/// Contracts see its turnstile, its number, the beginning of the history that it has seen, its own entries, how many
/// seats were made (at seat 0), how many loads it made and which word the last of them read, how many turns it took,
/// and whether it is told of a shutdown. All but the number exist in contracts alone.
#[derive(Drop)]
pub struct Seat<V> {
    pub(crate) token: Token<V>,
    pub(crate) number: SeatNo,
}

impl<V> Model for Seat<V> {
    ghost use Rattle.std.specs.Prelude.{◌≡◌, false, []};
    ghost use Rattle.turn_table.specs.Seats.{SeatView};
    ghost use Rattle.turn_table.specs.Views.{seat_view, KnowsItsOwn, SeesItsOwn};

    ghost Value = { SeatView };

    ghost view = { λ s. seat_view s.token.table_id s.token.me.0 };

    ghost invariant = { λ s. (s.token.me.1 ≡ []) × (s.token.me.0.number ≡ s.number) × (s.token.me.0.holds ≡ false) × (s.token.me.0.kept ≡ []) × KnowsItsOwn s.token.me.0 × SeesItsOwn s.token.me.0 };
}

impl<V> Seat<V> {
    /// The number of the seat, which its entries have.
    pub fn number(&self) -> SeatNo
        ensures number { result ≡ self.now.number }
        ensures own { own_entries self.now.number self.now.seen ≡ self.now.mine }
    {
        self.number
    }
}
