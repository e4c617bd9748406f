use crate::clock::Clock;
use crate::onward::places_onward;
use crate::place::Place;
use path_count::Walk;
use std::alloc::{AllocError, Global};
use task_base::Script;

/// The pasts of a script, each a path of situations.
#[derive(Clone, Copy)]
pub(crate) struct Logs<'a> {
    pub(crate) script: &'a Script,
    pub(crate) clock: Clock,
}

impl Walk for Logs<'_> {
    ghost use Rattle.log_count.specs.Layers.{onward};
    ghost use Rattle.log_count.specs.Ways.{is_whole_in};
    ghost use Rattle.situation_steps.specs.Reached.{IsReached};
    ghost use Rattle.log_counting.specs.Clocks.{tick_of};
    ghost use Rattle.log_counting.specs.Walks.{reached_onward};

    type Place = Place;

    ghost onward = { λ logs s. onward logs.script.now (tick_of logs.clock) s };

    ghost is_end = { λ logs s. is_whole_in logs.script.now s };

    ghost IsReached = { λ logs s. IsReached logs.script.now s };

    fn onward(&self, alloc: Global, place: &Place) -> Result<Vec<Place>, AllocError> {
        places_onward(alloc, self.script, self.clock, place.situation())
    }

    fn is_end(&self, place: &Place) -> bool {
        place.situation().is_whole(self.script)
    }

    ghost goes_on = { λ logs s reached. reached_onward logs.script.now (tick_of logs.clock) s reached };
}
