ghost use Rattle.std.specs.Prelude.{◌≡◌};
ghost use Rattle.script_model.specs.Reasons.{◌&◌};
ghost use Rattle.script_model.specs.Places.{id_at, time_at, ends_at};

use crate::reason::{Reason, both};
use crate::words::Words;

/// What a posting names, as a step and as an action: a task, its runner or queue, and the delay in microseconds, from 0
/// to `MOST_MICROSECONDS`. A posting has just these three words.
pub fn read_posting(mut words: Words<'_>) -> Result<(u32, (u32, (u64, ()))), Reason>
    ensures { result ≡ (id_at words.entry 0 & id_at words.entry 1 & time_at words.entry 2 & ends_at words.entry 3) }
{
    let task = words.id();
    let home = words.id();
    let delay = words.time();
    both(task, both(home, both(delay, words.end())))
}
