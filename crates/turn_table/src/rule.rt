// The rule of the table, and the names of its steps.
ghost use Rattle.turn_table.specs.Turn.{TurnHolds};
ghost use Rattle.turn_table.specs.Views.{first_view, after_split, split_off, spent_copy, with_kept, spent};
ghost use Rattle.turn_table.specs.Plays.{drew, looked, tried, entered, backed, front_set, front_read};

use crate::view::View;
use atomic_table::{Join, Play, Split, TableRule};
use hist_model::Chronicle;
use std::marker::PhantomData;
use std::snapshot::Snapshot;

/// What holds of the turn. The key is the value that the turnstile began with.
pub struct Law<V> {
    of: PhantomData<V>,
}

impl<V: Chronicle> TableRule<Option<V>, View, Snapshot<V>> for Law<V> {
    ghost holds = { λ key. TurnHolds V.history V.basis (V.basis key.value) };

    ghost first = { λ key. first_view (V.basis key.value) };
}

/// Seat 0 draws the number of the next seat.
pub struct Draw;

impl<V> Play<Option<V>, View> for Draw {
    ghost then = { λ _. drew };
}

/// Seat 0 gives the number that it has drawn to a second seat.
pub struct Deal;

impl Split<View> for Deal {
    ghost left = { after_split };

    ghost right = { split_off };
}

/// A seat looks how long the history is.
pub struct Look;

impl<V> Play<Option<V>, View> for Look {
    ghost then = { λ _. looked };
}

/// A seat tries to take the turn.
pub struct Grab;

impl<V: Chronicle> Play<Option<V>, View> for Grab {
    ghost then = { λ st. tried V.history V.basis st.first };
}

/// The holder gives the turn back with one more entry.
pub struct Enter;

impl<V: Chronicle> Play<Option<V>, View> for Enter {
    ghost then = { λ _. entered V.history };
}

/// The holder gives the turn back as it found it.
pub struct BackOut;

impl<V> Play<Option<V>, View> for BackOut {
    ghost then = { λ _. backed };
}

/// A seat that entered a shutdown sets its place.
pub struct SetFront;

impl<V> Play<Option<V>, View> for SetFront {
    ghost then = { λ _. front_set };
}

/// A seat reads the place of a shutdown.
pub struct ReadFront;

impl<V> Play<Option<V>, View> for ReadFront {
    ghost then = { λ _. front_read };
}

/// Seat 0 keeps what another seat knows, which is spent.
pub struct Keep;

impl Join<View> for Keep {
    ghost both = { with_kept };

    ghost spent = { spent };
}

/// A spent copy is cut off a seat.
pub struct CutOff;

impl Split<View> for CutOff {
    ghost left = { λ v. v };

    ghost right = { spent_copy };
}
