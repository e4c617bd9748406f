// The rule of the table, and the names of its steps.
ghost use Rattle.blocker_word.specs.Table.{TableCounts};
ghost use Rattle.blocker_word.specs.Tokens.{first_token, without_width, all_width, kept_part, given_part, with_width, spent_view};
ghost use Rattle.blocker_word.specs.Plays.{Began, ended, StartedAt, TriedAt, TokenLooked, offered, weighed};

use crate::view::View;
use atomic_table::{Join, Play, Split, TableRule};

/// What holds of the word. The table has no slots; their type is that of a width, so that a step can say one.
pub struct Law;

impl TableRule<u32, View, ()> for Law {
    ghost holds = { λ _. TableCounts };

    ghost first = { λ _. first_token };
}

/// The first idle token is split off.
pub struct Open;

impl Split<View> for Open {
    ghost left = { without_width };

    ghost right = { all_width };
}

/// An item begins, or is refused.
pub struct Begin;

impl Play<u32, View> for Begin {
    ghost then = { λ _. Began };
}

/// An item ends, or a refused begin takes its count back.
pub struct End;

impl Play<u32, View> for End {
    ghost then = { λ _ m _ n. ended m n };
}

/// Shutdown starts.
pub struct Start;

impl Play<u32, View> for Start {
    ghost then = { λ _. StartedAt };
}

/// Shutdown is done, if nothing blocks it.
pub struct Finish;

impl Play<u32, View> for Finish {
    ghost then = { λ _. TriedAt };
}

/// A token looks at the word.
pub struct Look;

impl Play<u32, View> for Look {
    ghost then = { λ _. TokenLooked };
}

/// A token says which width it gives next.
pub struct Offer;

impl Play<u32, View> for Offer {
    ghost then = { λ st. offered st.said };
}

/// A token gives the width that it has offered.
pub struct Give;

impl Split<View> for Give {
    ghost left = { kept_part };

    ghost right = { given_part };
}

/// A token takes the width of another.
pub struct Merge;

impl Join<View> for Merge {
    ghost both = { with_width };

    ghost spent = { spent_view };
}

/// A token learns that its width fits 32 bits.
pub struct Weigh;

impl Play<u32, View> for Weigh {
    ghost then = { λ _. weighed };
}
