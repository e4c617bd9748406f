ghost use Rattle.std.specs.Prelude.{◌≡◌, ◌+◌, ◌∷◌, ◌<◌, ◌≤◌, [], All, IfOk, MatchOption, OnOk, fold, if◌then◌else◌, length};
ghost use Rattle.key_tally.specs.Counts.{with_more};
ghost use Rattle.path_count.specs.Layers.{ending, gathered, spread};

use crate::walk::Walk;
use key_tally::Tally;
use natural_number::Natural;
use std::alloc::{AllocError, Global};
use std::hash::Hash;

/// The layer of no steps. The error is out of memory.
pub(crate) fn first_layer<K: Eq + Hash + Drop>(
    alloc: Global,
    start: K,
) -> Result<Tally<K>, AllocError>
    ensures { IfOk result (λ layer. layer ≡ (start, 1) ∷ []) }
{
    let mut layer = Tally::new(alloc);
    layer.add(start, &Natural::new(alloc, 1)?)?;
    Ok(layer)
}

/// Adds how many paths of a layer lead to an end. The error is out of memory.
pub(crate) fn add_ending<W: Walk>(
    walk: &W,
    layer: &Tally<W::Place>,
    ended: &mut Natural,
) -> Result<(), AllocError>
    requires { All (λ c. W.IsReached walk.now c.0) layer.now }
    ensures { OnOk result (ended.new ≡ ended.old + ending (W.is_end walk.now) layer.now) }
{
    for i in 0..layer.len() {
        let (place, paths) = layer.at(i);
        add_if_end(walk, place, paths, ended)?;
    }
    Ok(())
}

// Adds so many paths where they lead to an end. The error is out of memory.
fn add_if_end<W: Walk>(
    walk: &W,
    place: &W::Place,
    paths: &Natural,
    ended: &mut Natural,
) -> Result<(), AllocError>
    requires { W.IsReached walk.now place.now }
    ensures { OnOk result (ended.new ≡ ended.old + (if W.is_end walk.now place.now then paths.now else 0)) }
{
    if walk.is_end(place) {
        ended.add(paths)
    } else {
        Ok(())
    }
}

/// The layer of one step more, and none where it has more places than may be kept. The error is out of memory.
pub(crate) fn next_layer<W: Walk>(
    alloc: Global,
    walk: &W,
    layer: &Tally<W::Place>,
    most: usize,
) -> Result<Option<Tally<W::Place>>, AllocError>
    requires { All (λ c. W.IsReached walk.now c.0) layer.now }
    ensures { IfOk result (λ next. MatchOption next (most < length (gathered W.Place.eq (spread (W.onward walk.now) layer.now)))
        (λ found. (found ≡ gathered W.Place.eq (spread (W.onward walk.now) layer.now)) × (length found ≤ most))) }
{
    let mut next = Tally::new(alloc);
    for i in 0..layer.len() {
        let (place, paths) = layer.at(i);
        add_each(&mut next, walk.onward(alloc, place)?, paths)?;
        if next.len() > most {
            return Ok(None);
        }
    }
    Ok(Some(next))
}

// Adds so many paths to each of the places. The error is out of memory.
fn add_each<K: Eq + Hash + Drop>(
    known: &mut Tally<K>,
    places: Vec<K>,
    paths: &Natural,
) -> Result<(), AllocError>
    ensures { OnOk result (known.new ≡ fold (λ counts place. with_more K.eq place paths.now counts) known.old places.items) }
{
    for place in places {
        known.add(place, paths)?;
    }
    Ok(())
}
