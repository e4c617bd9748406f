ghost use Rattle.std.specs.Prelude.{◌≡◌};
ghost use Rattle.task_model.specs.Policies.{is_held, policy_after, policy_of};

use crate::phases::phase_of;
use task_base::{Entry, Kind, Phase, Policy, Priority};

/// Whether the policy holds back work of a priority by now.
pub fn is_held(past: &[Entry], priority: Priority) -> bool
    ensures { result ≡ is_held past.now priority }
{
    let held = match policy_of(past) {
        Policy::All => false,
        Policy::Foreground => priority == Priority::BestEffort,
        Policy::Nothing => true,
    };
    phase_of(past) == Phase::Running && held
}

/// The policy that was set last.
#[tactic(auto, unfolding(task_model::specs::Policies::policy_of))]
fn policy_of(past: &[Entry]) -> Policy
    ensures { result ≡ policy_of past.now }
{
    past.iter()
        .fold(Policy::All, |now, entry| policy_after(now, &entry.kind))
}

/// The policy after an entry.
fn policy_after(now: Policy, kind: &Kind) -> Policy
    ensures { result ≡ policy_after now kind.now }
{
    match *kind {
        Kind::Policy { policy } => policy,
        _ => now,
    }
}
