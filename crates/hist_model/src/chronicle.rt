ghost use Rattle.std.specs.Prelude.{List};
ghost use Rattle.task_base.specs.Plan.{Plan};
ghost use Rattle.task_base.specs.declared.entry.Entry.{Entry};

/// What keeps the history of one script's run. It has no call: clauses name its two meanings.
pub trait Chronicle {
    // The entries so far, oldest first.
    ghost history: { Self → List Entry };
    // The script that is run.
    ghost basis: { Self → Plan };
}

/// A box keeps the history of what is in it.
impl<V: Chronicle> Chronicle for Box<V> {
    ghost history = { λ b. V.history b.value };

    ghost basis = { λ b. V.basis b.value };
}
