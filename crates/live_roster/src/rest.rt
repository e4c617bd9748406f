ghost use Rattle.std.specs.Prelude.{◌≡◌};

use std::marker::Model;
use task_base::SeatNo;
use thiserror::Error;

/// That a seat was noted as one that rests. Only the note gives it, so who sleeps for it is woken (`no_wake_is_lost`).
///
/// Contracts see the seat.
#[derive(Drop)]
pub struct Rest {
    seat: SeatNo,
}

impl Model for Rest {
    ghost use Rattle.std.specs.Prelude.{ℕ};

    ghost Value = { ℕ };

    ghost view = { λ r. r.seat };
}

impl Rest {
    pub(crate) fn new(seat: SeatNo) -> Rest
        ensures { result ≡ seat }
    {
        Rest { seat }
    }

    /// The seat.
    pub fn seat(&self) -> SeatNo
        ensures { result ≡ self.now }
    {
        self.seat
    }
}

/// Why a seat doesn't rest.
#[derive(Debug, Drop, Error)]
pub enum Unrested {
    /// The call is not one that its seat may make now, or names what is not declared. Nothing was changed.
    #[error("this call may not be made now")]
    Misuse,
    /// What the call asks for has come, the call waits for nothing, or shutdown is done: the seat is to make it.
    #[error("it has come")]
    HasCome,
}
