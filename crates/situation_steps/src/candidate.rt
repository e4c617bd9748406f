ghost use Rattle.std.specs.Prelude.{◌≡◌};
ghost use Rattle.task_base.specs.Groups.{importance};
ghost use Rattle.task_model.specs.Sources.{goes_before};
ghost use Rattle.situation_steps.specs.Sources.{better_of, is_sooner};

use std::marker::Model;
use task_base::{Priority, SeatNo, TaskSource};

/// Work that waits.
#[derive(Clone, Copy, Debug)]
pub(crate) struct Candidate {
    pub source: TaskSource,
    pub priority: Priority,
    /// How many are inside.
    pub inside: u64,
    /// Its place in the line.
    pub place: usize,
    /// The only seat that may take it, if there is one.
    pub seat: Option<SeatNo>,
}

impl Model for Candidate {
    ghost use Rattle.task_model.specs.Keys.{key_at};
    ghost use Rattle.task_model.specs.Sources.{Candidate};

    ghost Value = { Candidate };

    ghost view = { λ c. record { source = c.source; priority = c.priority; inside = c.inside; key = key_at c.place; seat = c.seat } };

    ghost inverse = { λ c. record { source = c.source; priority = c.priority; inside = c.inside; place = c.key.place; seat = c.seat } };
}

/// The importance of a priority, as a number.
pub(crate) fn importance(priority: Priority) -> u8
    ensures { result ≡ importance priority }
{
    match priority {
        Priority::BestEffort => 0,
        Priority::UserVisible => 1,
        Priority::UserBlocking => 2,
    }
}

/// Whether the first goes before the second: by its priority, then by how few are inside, then by its place in the line.
pub(crate) fn goes_before(one: &Candidate, other: &Candidate) -> bool
    ensures { result ≡ goes_before one.now other.now }
{
    let first = importance(one.priority);
    let second = importance(other.priority);
    second < first || (second == first && is_sooner(one, other))
}

/// Whether fewer are inside the first than inside the second, or as many and it stands before that.
fn is_sooner(one: &Candidate, other: &Candidate) -> bool
    ensures { result ≡ is_sooner one.now other.now }
{
    one.inside < other.inside || (one.inside == other.inside && one.place < other.place)
}

/// The one that goes before the other; the first where neither does.
pub(crate) fn better_of(first: Option<Candidate>, second: Option<Candidate>) -> Option<Candidate>
    ensures { result ≡ better_of goes_before first second }
{
    match (first, second) {
        (Some(one), Some(other)) => Some(if goes_before(&other, &one) {
            other
        } else {
            one
        }),
        (None, other) => other,
        (one, None) => one,
    }
}
