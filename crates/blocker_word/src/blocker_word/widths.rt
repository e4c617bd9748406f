//! Splitting and joining idle tokens.
ghost use Rattle.std.specs.Prelude.{◌≡◌, ◌+◌, ◌-◌, ◌<◌};

use super::BlockerWord;
use crate::rule::{Give, Merge, Offer, Weigh};
use crate::tokens::Idle;

impl BlockerWord {
    /// Splits an idle token in two: the second has the width `give`, and the first keeps the rest.
    pub fn split(&self, idle: Idle, give: u32) -> (Idle, Idle)
        requires of { idle.of ≡ self.now }
        requires some { 0 < give }
        requires less { give < idle.width }
        ensures first { result.0 ≡ record idle { width = idle.width - give } }
        ensures second { result.1 ≡ record { of = idle.of; width = give; tries = 0; met = 0 } }
    {
        let Idle { mut token, width } = idle;
        let shared = &self.table.shared;
        // From 0 to 0 leaves the word as it is: the step is there to say the width.
        shared.compare_exchange_with::<Offer>(&mut token, 0, 0, 0, &give);
        let second = shared.split_seat::<Give>(&mut token);
        (
            Idle {
                token,
                width: width - give,
            },
            Idle {
                token: second,
                width: give,
            },
        )
    }

    /// Joins two idle tokens into one with the width of both. It is `keep` otherwise.
    pub fn join(&self, keep: Idle, gone: Idle) -> Idle
        requires keep { keep.of ≡ self.now }
        requires gone { gone.of ≡ self.now }
        ensures { result ≡ record keep { width = keep.width + gone.width } }
    {
        let Idle { mut token, width } = keep;
        let Idle {
            token: other,
            width: more,
        } = gone;
        let shared = &self.table.shared;
        shared.join_seat::<Merge>(&mut token, other);
        // The rule says that the widths fit, and a step tells it.
        shared.load::<Weigh>(&mut token, 0);
        Idle {
            token,
            width: width + more,
        }
    }
}
