ghost use Rattle.std.specs.Prelude.{◌≡◌, List};
ghost use Rattle.task_base.specs.Steps.{after};
ghost use Rattle.task_base.specs.declared.step.Step.{Step};

/// What a body does at once, in place of the steps that it stands for: a function from the value of the cell to the
/// value that it leaves, together with what it owns.
pub trait Work: Drop {
    /// The compute steps that it stands for.
    ghost steps: { Self → List Step };

    /// Does the work, and answers the value that it leaves of this one.
    fn run(self, value: u64) -> u64
        ensures { result ≡ after (steps self) value };
}
