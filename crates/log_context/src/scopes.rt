ghost use Rattle.std.specs.Prelude.{◌≡◌, List};
ghost use Rattle.std.specs.Option.{option_map};
ghost use Rattle.list_laws.specs.Lists.{holds_of};
ghost use Rattle.task_base.specs.declared.entry.Entry.{Entry as AnyEntry};
ghost use Rattle.task_model.specs.Capacity.{open_scope, scope_after, scope_counts};
ghost use Rattle.task_model.specs.Time.{now_after, now_of};
ghost use Rattle.log_context.specs.Work.{opened};

use task_base::{Entry, Kind, Scope, Script, TaskId};

/// A blocking scope that is open, and the moment at which it was opened, in microseconds.
#[derive(Clone, Copy, Debug)]
pub struct Opened {
    pub scope: Scope,
    pub since: u64,
}

/// Whether a task has a scope open that counts by now.
pub fn is_blocked_in(script: &Script, past: &[Entry], task: TaskId) -> bool
    ensures { result ≡ holds_of (scope_counts script.now past.now) (open_scope past.now task) }
{
    match scope_of(past, task) {
        None => false,
        Some(found) => has_come(script, past, found),
    }
}

/// Whether a scope counts by now.
fn has_come(script: &Script, past: &[Entry], found: Opened) -> bool
    ensures { result ≡ scope_counts script.now past.now (opened found) }
{
    let now = now_of(past);
    match found.scope {
        Scope::Will => true,
        Scope::May => now >= found.since && now - found.since >= script.threshold,
    }
}

/// The scope that a task opened last and has not closed.
fn scope_of(past: &[Entry], task: TaskId) -> Option<Opened>
    ensures { option_map opened result ≡ open_scope past.now task }
{
    let mut found = None;
    let mut moment = 0;
    for entry in past {
        found = scope_after(task, moment, found, &entry.kind);
        moment = moment_after(moment, &entry.kind);
    }
    found
}

/// The open scope of a task after an entry at this moment.
fn scope_after(task: TaskId, moment: u64, found: Option<Opened>, kind: &Kind) -> Option<Opened>
    ensures { (before : List AnyEntry) → moment ≡ now_of before → option_map opened result ≡ scope_after task before (option_map opened found) kind.now }
{
    match *kind {
        Kind::Enter { task: t, scope } if t == task => Some(Opened {
            scope,
            since: moment,
        }),
        Kind::Leave { task: t } if t == task => None,
        _ => found,
    }
}

/// The moment by now.
#[tactic(auto, unfolding(task_model::specs::Time::now_of))]
fn now_of(past: &[Entry]) -> u64
    ensures { result ≡ now_of past.now }
{
    past.iter()
        .fold(0, |now, entry| moment_after(now, &entry.kind))
}

/// The moment after an entry.
fn moment_after(moment: u64, kind: &Kind) -> u64
    ensures { result ≡ now_after moment kind.now }
{
    match *kind {
        Kind::Tick { now } => now,
        _ => moment,
    }
}
