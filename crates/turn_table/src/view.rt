ghost use Rattle.std.specs.Prelude.{ℕ, List, Bool};
ghost use Rattle.std.specs.Borrow.{ftrue};
ghost use Rattle.task_base.specs.Plan.{Plan};
ghost use Rattle.task_base.specs.declared.entry.Entry.{Entry};
ghost use Rattle.turn_table.specs.Places.{Kept};

use std::marker::Model;

/// What a seat knows, in proofs alone. No value of it is made.
pub struct View {
    // The script of its turnstile.
    pub ghost basis: { Plan },
    pub ghost number: { ℕ },
    // The beginning of the history that it has seen.
    pub ghost seen: { List Entry },
    // Its own entries.
    pub ghost mine: { List Entry },
    // At seat 0: how many seats were made.
    pub ghost made: { ℕ },
    // At seat 0: the number that was drawn last, or 0.
    pub ghost drawn: { ℕ },
    // At seat 0: the seats that were joined.
    pub ghost kept: { List Kept },
    pub ghost loads: { ℕ },
    // The word that its last load read.
    pub ghost last: { ℕ },
    pub ghost turns: { ℕ },
    // It holds the turn.
    pub ghost holds: { Bool },
    // It knows that a shutdown stands.
    pub ghost told: { Bool },
    // It is not spent.
    pub ghost live: { Bool },
}

impl Model for View {
    ghost also_owns = { λ _. ftrue };
}
