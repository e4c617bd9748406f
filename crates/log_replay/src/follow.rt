ghost use Rattle.std.specs.Prelude.{◌≡◌, ℕ};
ghost use Rattle.task_base.specs.declared.entry.Kind.TheVariants as kinds;
ghost use Rattle.log_replay.specs.Follows.{Follows};

use crate::kinds::same_kind;
use crate::replay::Replay;
use task_base::{Entry, Kind, Script};

impl Replay {
    /// Goes on by an entry: its seat does a step, which makes the one entry that may come of it. False where that is another one
    /// or none, and the log is followed no further.
    pub fn follow(&mut self, script: &Script, entry: Entry) -> bool
        requires { script.now ≡ self.old.script }
        ensures { Follows self.old self.new entry result }
    {
        if entry.seat > script.workers {
            return false;
        }
        let reading = reading_of(&entry.kind);
        match self.hands.step(&mut self.env, script, entry.seat, reading) {
            Ok(kind) => same_kind(&kind, &entry.kind),
            Err(_) => false,
        }
    }
}

/// The reading of the clock by which a step makes this entry, where it may come: the moment of a tick, and 0 where it is none.
pub fn reading_of(kind: &Kind) -> u64
    ensures { (now : ℕ) → kind.now ≡ kinds.Tick now → result ≡ now }
{
    match *kind {
        Kind::Tick { now } => now,
        _ => 0,
    }
}
