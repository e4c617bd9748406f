ghost use Rattle.std.specs.Prelude.{◌≡◌};

use crate::shared::EnvSeat;
use env_roster::Rest;
use std::marker::Model;
use task_body::TaskBody;

/// A seat that sits at a desk, and what its thread may sleep for.
///
/// Contracts see the seat, and whether it was noted by its last hold as one that rests, and hasn't slept since.
#[derive(Drop)]
pub struct Sitter<B: TaskBody> {
    pub seat: EnvSeat<B>,
    /// That the seat was noted.
    pub rest: Option<Rest>,
}

impl<B: TaskBody> Model for Sitter<B> {
    ghost use Rattle.std.specs.Prelude.{◌≡◌, is_some, IfSome};
    ghost use Rattle.env_shared.specs.Sits.{SitterView};

    ghost Value = { SitterView };

    ghost view = { λ s. record { seat = s.seat; rests = is_some s.rest } };

    ghost invariant = { λ s. IfSome s.rest (λ noted. noted ≡ s.seat.number) };
}
