ghost use Rattle.std.specs.Prelude.{◌≡◌};
ghost use Rattle.log_counting.specs.Clocks.{tick_of};

use situation_steps::Situation;

/// Which moments ticks read.
#[derive(Clone, Copy, Debug)]
pub enum Clock {
    /// Each tick reads so many microseconds more than the one before.
    ByStep(u64),
    /// Each tick reads the next moment at which something may change.
    ByJumps,
}

/// The moment that a tick reads in a situation, in microseconds.
pub(crate) fn moment(clock: Clock, s: &Situation) -> u64
    ensures { result ≡ tick_of clock s.now }
{
    match clock {
        Clock::ByStep(step) => s.by_step(step),
        Clock::ByJumps => s.by_jumps(),
    }
}
