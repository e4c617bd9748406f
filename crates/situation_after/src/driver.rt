//! Where the driver is after an entry of its own.
ghost use Rattle.std.specs.Prelude.{◌≡◌, ◌+◌, ◌^◌, ◌<◌, []};
ghost use Rattle.hist_model.specs.Laws.Agenda.{agenda_from};
ghost use Rattle.hist_model.specs.Script.{is_joined, is_main_end, is_main_none};
ghost use Rattle.situation_after.specs.Actions.{is_nothing};
ghost use Rattle.log_count.specs.After.{completes_at, driver_after, driver_of, made_after};

use situation_steps::DriverAt;
use task_base::{Action, Kind};

/// Whether the entry ends a join.
fn is_joined(kind: Kind) -> bool
    ensures { result ≡ is_joined kind }
{
    matches!(kind, Kind::Joined { .. })
}

/// Whether the entry finds no main task.
fn is_main_none(kind: Kind) -> bool
    ensures { result ≡ is_main_none kind }
{
    matches!(kind, Kind::MainNone)
}

/// Whether the entry ends a main task.
fn is_main_end(kind: Kind) -> bool
    ensures { result ≡ is_main_end kind }
{
    matches!(kind, Kind::MainEnd { .. })
}

/// Whether one more entry completes an action of which so much is made.
fn completes_at(action: Action, made: u32, kind: Kind) -> bool
    requires { made + 1 < 2 ^ 32 }
    ensures { result ≡ completes_at action made kind }
{
    match action {
        Action::Tick { count } => made + 1 == count,
        Action::Pump { count } => is_main_none(kind) || (is_main_end(kind) && count <= made + 1),
        Action::Join { .. } => is_joined(kind),
        Action::Cancel { .. } | Action::Shutdown => made + 1 == 2,
        _ => true,
    }
}

/// How much of an action is made after one more entry that doesn't complete it.
fn made_after(action: Action, made: u32, kind: Kind) -> u32
    requires { made + 1 < 2 ^ 32 }
    ensures { result ≡ made_after action made kind }
{
    match action {
        Action::Tick { .. } | Action::Cancel { .. } | Action::Shutdown => made + 1,
        Action::Pump { .. } => { if is_main_end(kind) { made + 1 } else { made } }
        _ => 0,
    }
}

/// Whether an action asks for no entry at all. A sound script has no such action.
fn is_nothing(action: Action) -> bool
    ensures { result ≡ is_nothing action }
{
    matches!(action, Action::Tick { count: 0 })
}

/// Where the driver is as these actions begin.
#[tactic(auto, using(crate::proofs::Actions::begins_at_first, crate::proofs::Actions::passes_nothing))]
pub(crate) fn driver_of(actions: &[Action]) -> DriverAt
    ensures { result ≡ driver_of (agenda_from actions.now []) }
{
    let Some((first, rest)) = actions.split_first() else {
        return DriverAt { left: 0, made: 0 };
    };
    if is_nothing(*first) {
        driver_of(rest)
    } else {
        DriverAt {
            left: actions.len(),
            made: 0,
        }
    }
}

/// Where the driver is after an entry of its own, by the actions that it had left, so much of the first being made.
pub(crate) fn driver_after(actions: &[Action], made: u32, kind: Kind) -> DriverAt
    requires { made + 1 < 2 ^ 32 }
    ensures { result ≡ driver_after actions.now made kind }
{
    let Some((action, rest)) = actions.split_first() else {
        return DriverAt { left: 0, made: 0 };
    };
    if completes_at(*action, made, kind) {
        driver_of(rest)
    } else {
        DriverAt {
            left: actions.len(),
            made: made_after(*action, made, kind),
        }
    }
}
