ghost use Rattle.std.specs.Prelude.{ℕ};
ghost use Rattle.std.specs.Borrow.{ftrue};
ghost use Rattle.blocker_word.specs.Roles.{Role};

use std::marker::Model;

/// What a token knows, in proofs alone. No value of it is made.
pub struct View {
    pub ghost role: { Role },
    // The number of idle tokens that it may be split into.
    pub ghost width: { ℕ },
    // The width that its next split gives, or 0.
    pub ghost offered: { ℕ },
    // The number of its steps that are begins, starts, tries for done or looks.
    pub ghost tries: { ℕ },
    // The word that the last of them found.
    pub ghost met: { ℕ },
}

impl Model for View {
    ghost also_owns = { λ _. ftrue };
}
