ghost use Rattle.std.specs.Prelude.{◌<◌, IfOk};
ghost use Rattle.path_count.specs.Answers.{IsAnswer};

use crate::layers::{add_ending, first_layer, next_layer};
use crate::walk::Walk;
use natural_number::Natural;
use std::alloc::{AllocError, Global};

/// How many paths of at most so many steps lead from the start to an end.
#[derive(Drop)]
pub enum PathCount {
    /// So many.
    All(Natural),
    /// After so many steps more places are reached than may be kept. So many paths of fewer steps lead to an end.
    TooMany { steps: u64, at_least: Natural },
}

/// Counts the paths of at most so many steps that lead from the start to an end. It keeps at most two layers, of at most so many
/// places each and those to which one place goes on. The error is out of memory.
pub fn count_paths<W: Walk>(
    alloc: Global,
    walk: &W,
    start: W::Place,
    steps: u64,
    most: usize,
) -> Result<PathCount, AllocError>
    requires some { 0 < most }
    requires reached { W.IsReached walk.now start }
    ensures { IfOk result (IsAnswer W.Place.eq (W.onward walk.now) (W.is_end walk.now) start steps most) }
{
    let mut layer = first_layer(alloc, start)?;
    let mut ended = Natural::zero(alloc);
    add_ending(walk, &layer, &mut ended)?;
    for step in 0..steps {
        match next_layer(alloc, walk, &layer, most)? {
            None => {
                return Ok(PathCount::TooMany {
                    steps: step + 1,
                    at_least: ended,
                });
            }
            Some(next) => layer = next,
        }
        add_ending(walk, &layer, &mut ended)?;
    }
    Ok(PathCount::All(ended))
}
