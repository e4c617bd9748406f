use crate::seat::Token;
use std::marker::Model;
use task_base::SeatNo;

/// A turn that is held. It is spent where the turn is given back, and cannot be dropped before.
///
/// Contracts see the seat that took it, with the history that it took as what the seat has seen.
pub struct Holding<V> {
    pub(crate) token: Token<V>,
    pub(crate) number: SeatNo,
}

impl<V> Model for Holding<V> {
    ghost use Rattle.std.specs.Prelude.{◌≡◌, ◌<◌, [], ◌∷◌, None};
    ghost use Rattle.turn_table.specs.Seats.{SeatView};
    ghost use Rattle.turn_table.specs.Views.{seat_view, IsHeld};

    ghost Value = { SeatView };

    ghost view = { λ h. seat_view h.token.table_id h.token.me.0 };

    ghost invariant = { λ h. (h.token.me.1 ≡ (0, None) ∷ []) × (h.token.me.0.number ≡ h.number) × IsHeld h.token.me.0 };
}
