ghost use Rattle.std.specs.Prelude.{◌≡◌};

use std::marker::Model;
use task_base::SeatNo;

/// What is noted of a seat.
#[derive(Clone, Copy, Debug, PartialEq, Eq)]
pub enum Note {
    /// It is awake: it has held the turn since it was woken.
    Awake,
    /// It found nothing to do, and sleeps until it is woken.
    Resting,
    /// It was woken, or is about to be, and hasn't held the turn since.
    Woken,
}

/// Whom to wake once the turn is given back. It can be neither copied nor dropped, so whoever is given one has to go by it.
pub enum Wake {
    Nobody,
    One(Woken),
    Everyone,
}

/// That a seat was noted as woken. It can be neither copied nor dropped, and is spent where the seat's thread is woken.
///
/// Contracts see the seat.
pub struct Woken {
    seat: SeatNo,
}

impl Model for Woken {
    ghost use Rattle.std.specs.Prelude.{ℕ};

    ghost Value = { ℕ };

    ghost view = { λ w. w.seat };
}

impl Woken {
    pub(crate) fn new(seat: SeatNo) -> Woken
        ensures { result ≡ seat }
    {
        Woken { seat }
    }

    /// The seat.
    pub fn seat(&self) -> SeatNo
        ensures { result ≡ self.now }
    {
        self.seat
    }

    /// The seat's thread is woken.
    pub fn spend(self) {
        let Woken { seat: _ } = self;
    }
}

/// That a seat was noted as one that rests. Only the note gives it, so who sleeps for it is woken (`no_wake_is_lost`).
///
/// Contracts see the seat.
#[derive(Drop)]
pub struct Rest {
    seat: SeatNo,
}

impl Model for Rest {
    ghost use Rattle.std.specs.Prelude.{ℕ};

    ghost Value = { ℕ };

    ghost view = { λ r. r.seat };
}

impl Rest {
    pub(crate) fn new(seat: SeatNo) -> Rest
        ensures { result ≡ seat }
    {
        Rest { seat }
    }
}
