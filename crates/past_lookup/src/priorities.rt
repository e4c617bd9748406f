ghost use Rattle.std.specs.Prelude.{◌≡◌};
ghost use Rattle.task_model.specs.Capacity.{declared_priority, priority_after, priority_of};

use task_base::{Entry, Kind, Priority, RunnerId, Script};

/// The priority of a runner by now.
#[tactic(auto, unfolding(task_model::specs::Capacity::priority_of))]
pub fn priority_of(script: &Script, past: &[Entry], runner: RunnerId) -> Priority
    ensures { result ≡ priority_of script.now past.now runner }
{
    past.iter()
        .fold(declared_priority(script, runner), |now, entry| {
            priority_after(runner, now, &entry.kind)
        })
}

/// The priority that the script declares for a runner.
fn declared_priority(script: &Script, runner: RunnerId) -> Priority
    ensures { result ≡ declared_priority script.now runner }
{
    match script.runners.at(runner as usize) {
        None => Priority::BestEffort,
        Some(runner) => runner.traits.priority,
    }
}

/// The priority of a runner after an entry.
fn priority_after(runner: RunnerId, now: Priority, kind: &Kind) -> Priority
    ensures { result ≡ priority_after runner now kind.now }
{
    match *kind {
        Kind::Reprio {
            runner: changed,
            priority,
        } => { if changed == runner { priority } else { now } }
        _ => now,
    }
}
