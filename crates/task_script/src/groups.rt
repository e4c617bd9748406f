use std::marker::Model;

/// How many tasks run at once. Contracts see it as the draft's record of the same numbers.
#[derive(Drop)]
pub(crate) struct GroupLimits {
    pub(crate) foreground: u32,
    pub(crate) foreground_best: u32,
    pub(crate) background: u32,
}

impl Model for GroupLimits {
    ghost use Rattle.script_model.specs.Draft.{Groups};

    ghost Value = { Groups };

    ghost view = { λ limits. record {
      foreground = limits.foreground;
      foreground_best = limits.foreground_best;
      background = limits.background;
    } };
}
