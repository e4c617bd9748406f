ghost use Rattle.std.specs.Prelude.{◌≡◌, ◌==◌, ◌<◌, ◌≤◌, ◌^◌, length};
ghost use Rattle.env_core.specs.Agenda.{entries_of, moved_on, passed_on, shifted};

use task_base::{Action, Script};

/// How far the driver has come in a script: how many actions are complete, and how many entries the next one has made. Of
/// a pump those count at which a main task ends, and of a join its reply.
#[derive(Clone, Copy, Debug)]
pub struct Agenda {
    pub place: usize,
    pub made: u32,
}

/// What one more entry does to the driver's place.
#[derive(Clone, Copy)]
pub enum Shift {
    /// It is none that counts.
    Stays,
    /// It counts: it is one by the script, or the end of a main task.
    Counts,
    /// It completes the driver's action: a pump found no main task.
    Completes,
}

impl Agenda {
    /// Whether all actions are complete.
    pub fn is_finished(&self, script: &Script) -> bool
        ensures { result ≡ (self.now.place == length script.now.actions) }
    {
        self.place == script.actions.len()
    }

    /// The history has one more entry, which so shifts the place.
    pub fn follow(&mut self, script: &Script, shift: Shift)
        requires few { self.old.made < 2 ^ 31 }
        requires within { self.old.place ≤ length script.now.actions }
        ensures { self.new ≡ shifted shift script.now.actions self.old }
    {
        match shift {
            Shift::Stays => {}
            Shift::Counts => self.count(script),
            Shift::Completes => self.complete(script),
        }
    }

    // The driver has made one more entry that counts.
    fn count(&mut self, script: &Script)
        requires few { self.old.made < 2 ^ 31 }
        requires within { self.old.place ≤ length script.now.actions }
        ensures { self.new ≡ moved_on script.now.actions self.old }
    {
        let Some(action) = script.actions.at(self.place) else {
            return;
        };
        self.made += 1;
        if self.made == entries_of(action) {
            self.place += 1;
            self.made = 0;
        }
    }

    // The driver's action is complete.
    fn complete(&mut self, script: &Script)
        requires { self.old.place ≤ length script.now.actions }
        ensures { self.new ≡ passed_on script.now.actions self.old }
    {
        if self.place < script.actions.len() {
            self.place += 1;
            self.made = 0;
        }
    }
}

// How many entries complete an action.
fn entries_of(action: &Action) -> u32
    ensures { result ≡ entries_of action.now }
{
    match action {
        Action::Tick { count } | Action::Pump { count } => *count,
        Action::Cancel { .. } | Action::Shutdown => 2,
        _ => 1,
    }
}
