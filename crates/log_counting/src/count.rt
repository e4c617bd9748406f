ghost use Rattle.std.specs.Prelude.{◌≡◌, ◌<◌, true, IfOk};
ghost use Rattle.script_model.specs.Laws.Sound.{IsSound};
ghost use Rattle.situation.specs.Situation.{is_pool_script};
ghost use Rattle.log_counting.specs.Answers.{IsAnswer, TellsLogs};
ghost use Rattle.log_counting.specs.Clocks.{tick_of};

use crate::clock::Clock;
use crate::logs::Logs;
use crate::place::Place;
use natural_number::Natural;
use path_count::{PathCount, count_paths};
use script_bound::events_bound;
use situation_after::start;
use std::alloc::{AllocError, Global};
use task_base::Script;

/// How many whole logs a script has.
#[derive(Drop)]
pub enum LogCount {
    /// So many.
    Whole(Natural),
    /// After so many entries more situations are reached than may be kept. So many whole logs have fewer entries.
    GaveUp { entries: u64, at_least: Natural },
}

/// Counts the whole logs of a sound script without main queues, whose ticks read the moments of a clock. It keeps at most two
/// layers, of at most so many situations each and those to which one goes on. The error is out of memory.
pub fn count_logs(
    alloc: Global,
    script: &Script,
    clock: Clock,
    most: usize,
) -> Result<LogCount, AllocError>
    requires sound { IsSound script.now }
    requires pool { is_pool_script script.now ≡ true }
    requires some { 0 < most }
    ensures answer { IfOk result (IsAnswer script.now (tick_of clock) most) }

    // The number is that of the legal, whole logs whose ticks read so, and a lower bound is one of it.
    ensures logs { IfOk result (TellsLogs script.now (tick_of clock)) }
{
    let first = Place::new(alloc, start(alloc, script)?)?;
    let logs = Logs { script, clock };
    let steps = u64::from(events_bound(script));
    match count_paths(alloc, &logs, first, steps, most)? {
        PathCount::All(number) => Ok(LogCount::Whole(number)),
        PathCount::TooMany { steps, at_least } => Ok(LogCount::GaveUp {
            entries: steps,
            at_least,
        }),
    }
}
