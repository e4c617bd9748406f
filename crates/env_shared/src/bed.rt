ghost use Rattle.std.specs.Prelude.{◌≡◌};

use env_roster::{Rest, Woken};
use std::marker::Model;
use std::sync::Wait;
use std::thread::Parker;
use task_base::SeatNo;

/// What the thread of a seat sleeps on.
///
/// Contracts see the seat.
#[derive(Drop)]
pub struct Bed {
    seat: SeatNo,
    parker: Parker,
}

impl Model for Bed {
    ghost use Rattle.std.specs.Prelude.{ℕ};

    ghost Value = { ℕ };

    ghost view = { λ b. b.seat };
}

impl Bed {
    pub fn new(seat: SeatNo) -> Bed
        ensures { result ≡ seat }
    {
        Bed {
            seat,
            parker: Parker::new(),
        }
    }

    /// Has the thread of the seat, which was noted, sleep until the seat is woken, or not at all where it was woken since.
    pub fn park<R: Wait>(&self, rt: &R, rest: Rest)
        requires { rest ≡ self.now }
    {
        self.parker.park(rt);
        drop(rest);
    }

    /// Wakes the thread of the seat, which was noted as woken.
    pub fn unpark(&self, woken: Woken)
        requires { woken ≡ self.now }
    {
        self.parker.unpark();
        woken.spend();
    }

    /// Wakes the thread of the seat, where everyone is woken.
    pub fn unpark_with_all(&self) {
        self.parker.unpark();
    }
}
