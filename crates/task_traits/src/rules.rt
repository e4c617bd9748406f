ghost use Rattle.std.specs.Prelude.{◌≡◌};
ghost use Rattle.task_traits.specs.Behaviour.{effective_of, forbids};

use crate::phase::Phase;
use crate::traits::Behaviour;

/// The behaviour that a task has in effect, from that of its runner and from whether its delay is above 0.
/// Shutdown does not wait for delays, so delayed work does not block it (this project's own rule).
pub fn effective(behaviour: Behaviour, delayed: bool) -> Behaviour
    ensures { result ≡ effective_of behaviour delayed }
{
    match behaviour {
        Behaviour::BlockShutdown if delayed => Behaviour::SkipOnShutdown,
        _ => behaviour,
    }
}

/// Whether a phase forbids work of an effective behaviour to be accepted and to start (the behaviours are
/// those of Chromium's `task_traits.h`; the three phases are this project's own).
pub fn forbids(phase: Phase, effective: Behaviour) -> bool
    ensures { result ≡ forbids phase effective }
{
    match phase {
        Phase::Running => false,
        Phase::Started => effective != Behaviour::BlockShutdown,
        Phase::Done => true,
    }
}
