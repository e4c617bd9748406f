ghost use Rattle.std.specs.Prelude.{◌≡◌, ◌++◌, ◌≤◌, IfOk, OnOk};
ghost use Rattle.std.specs.Option.{option_map, option_to_list};
ghost use Rattle.log_count.specs.After.{after_in};
ghost use Rattle.log_count.specs.Layers.{onward};
ghost use Rattle.log_count.specs.Ways.{next_in};
ghost use Rattle.situation_steps.specs.Reached.{IsReached};
ghost use Rattle.log_counting.specs.Clocks.{tick_of};

use crate::clock::{Clock, moment};
use crate::place::Place;
use situation_after::onward;
use situation_steps::Situation;
use std::alloc::{AllocError, Global};
use task_base::{Script, SeatNo};

/// The places to which the entries lead that seats may make next. The error is out of memory.
pub(crate) fn places_onward(
    alloc: Global,
    script: &Script,
    clock: Clock,
    s: &Situation,
) -> Result<Vec<Place>, AllocError>
    requires { IsReached script.now s.now }
    ensures { IfOk result (λ places. places.items ≡ onward script.now (tick_of clock) s.now) }
{
    let mut places = Vec::new(alloc);
    for seat in 0..u64::from(script.workers) + 1 {
        let place = place_after(alloc, script, clock, s, seat as SeatNo)?;
        add_found(&mut places, place)?;
    }
    Ok(places)
}

// Adds a place that was found. The error is out of memory.
fn add_found(places: &mut Vec<Place>, found: Option<Place>) -> Result<(), AllocError>
    ensures { OnOk result (places.new.items ≡ places.old.items ++ option_to_list found) }
{
    match found {
        None => Ok(()),
        Some(place) => Ok(places.push(place)?),
    }
}

// Where the entry leads that a seat may make next, if it may make one. The error is out of memory.
fn place_after(
    alloc: Global,
    script: &Script,
    clock: Clock,
    s: &Situation,
    seat: SeatNo,
) -> Result<Option<Place>, AllocError>
    requires reached { IsReached script.now s.now }
    requires seat { seat ≤ script.now.workers }
    ensures { IfOk result (λ place. place ≡ option_map (after_in script.now s.now seat) (next_in script.now (tick_of clock) s.now seat)) }
{
    match onward(alloc, script, s, moment(clock, s), seat)? {
        None => Ok(None),
        Some(situation) => Ok(Some(Place::new(alloc, situation)?)),
    }
}
