ghost use Rattle.std.specs.Prelude.{◌≡◌};

use std::marker::Model;
use task_base::SeatNo;

/// Whom to wake once the lock is free. It can be neither copied nor dropped, so whoever is given one has to go by it.
pub enum Wake {
    Nobody,
    One(Woken),
    /// Shutdown is done: there will be nothing to wait for any more.
    Everyone,
}

/// That a seat was noted as woken. It can be neither copied nor dropped, and is spent where the seat's thread is woken.
///
/// Contracts see the seat.
pub struct Woken {
    seat: SeatNo,
}

impl Model for Woken {
    ghost use Rattle.std.specs.Prelude.{ℕ};

    ghost Value = { ℕ };

    ghost view = { λ w. w.seat };
}

impl Woken {
    pub(crate) fn new(seat: SeatNo) -> Woken
        ensures { result ≡ seat }
    {
        Woken { seat }
    }

    /// The seat.
    pub fn seat(&self) -> SeatNo
        ensures { result ≡ self.now }
    {
        self.seat
    }

    /// The seat's thread is woken.
    pub fn spend(self) {
        let Woken { seat: _ } = self;
    }
}
