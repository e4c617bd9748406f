ghost use Rattle.std.specs.Prelude.{◌≡◌, slice_get};
ghost use Rattle.list_laws.specs.Lists.{holds_of};
ghost use Rattle.task_base.specs.Runners.{is_parallel};
ghost use Rattle.past_lookup.specs.Runners.{is_others};

use task_base::{RunnerId, RunnerKind, Script, SeatNo};

/// Whether a runner makes a sequence of each task.
pub fn is_parallel(script: &Script, runner: RunnerId) -> bool
    ensures { result ≡ holds_of (λ r. is_parallel r.kind) (slice_get script.now.runners runner) }
{
    match script.runners.at(runner as usize) {
        None => false,
        Some(runner) => matches!(runner.kind, RunnerKind::Parallel),
    }
}

/// Whether a runner is a single-thread one of another seat.
pub fn is_others(script: &Script, seat: SeatNo, runner: RunnerId) -> bool
    ensures { result ≡ is_others script.now seat runner }
{
    match script.runners.at(runner as usize) {
        None => false,
        Some(runner) => match runner.kind {
            RunnerKind::Single(only) => only != seat,
            RunnerKind::Parallel | RunnerKind::Sequenced => false,
        },
    }
}
