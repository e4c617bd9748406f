//! Whom to wake.
ghost use Rattle.std.specs.Prelude.{◌≡◌, ◌<◌, ◌^◌, false, List, IfSome, IfNone};
ghost use Rattle.task_base.specs.Plan.{Plan};
ghost use Rattle.task_base.specs.declared.entry.Entry.{Entry};
ghost use Rattle.live_roster.specs.Answers.{HasRoused};
ghost use Rattle.live_roster.specs.StandsFor.{HasNotes};
ghost use Rattle.live_roster.specs.Wakes.{HasWorkAt, IsAllHandedOn, IsPick, NobodyHasWork, NobodyRests, has_work};

use crate::note::Note;
use crate::roster::LiveRoster;
use crate::wake::{Wake, Woken};
use live_core::Call;
use task_base::SeatNo;

impl LiveRoster {
    /// Sees whom to wake, and notes it: everyone where shutdown is done; else a seat that rests and has something of its own to
    /// do, at once; else, unless a seat that was woken before has something to do, the first that rests and has.
    pub(crate) fn rouse(&mut self) -> Wake
        requires { (plan : Plan) × (past : List Entry) × HasNotes plan past self.old }
        ensures { (plan : Plan) (past : List Entry) → HasNotes plan past self.old
            → HasRoused plan past self.old.core self.old.wish self.old.notes.items self.new result }
    {
        if !self.some_rest {
            return Wake::Nobody;
        }
        if self.core.is_done() {
            self.notes.fill(Note::Woken);
            self.some_rest = false;
            return Wake::Everyone;
        }
        let Some(seat) = self.pick() else {
            return Wake::Nobody;
        };
        self.notes[seat as usize] = Note::Woken;
        self.some_rest = self.has_resting();
        Wake::One(Woken::new(seat))
    }

    // Whom to wake while shutdown is not done.
    fn pick(&self) -> Option<SeatNo>
        requires { (plan : Plan) × (past : List Entry) × HasNotes plan past self.now }
        ensures some { (plan : Plan) (past : List Entry) → HasNotes plan past self.now
            → IfSome result (IsPick plan past self.now.wish self.now.notes.items) }
        ensures none { (plan : Plan) (past : List Entry) → HasNotes plan past self.now
            → IfNone result (IsAllHandedOn plan past self.now.wish self.now.notes.items) }
    {
        if let Some(seat) = self.find(Note::Resting, true) {
            return Some(seat);
        }
        // Where no worker may take a source, nobody else has anything to do.
        if !self.core.is_any_ready() {
            return None;
        }
        // Who was woken and has something to do hands the rest on.
        if self.find(Note::Woken, false).is_some() {
            return None;
        }
        self.find(Note::Resting, false)
    }

    // The first seat with this note that has something to do; of its own, where that is asked.
    fn find(&self, note: Note, own: bool) -> Option<SeatNo>
        requires { (plan : Plan) × (past : List Entry) × HasNotes plan past self.now }
        ensures found { (plan : Plan) (past : List Entry) → HasNotes plan past self.now
            → IfSome result (HasWorkAt (has_work plan past self.now.wish own) self.now.notes.items note) }
        ensures none { (plan : Plan) (past : List Entry) → HasNotes plan past self.now
            → IfNone result (NobodyHasWork (has_work plan past self.now.wish own) self.now.notes.items note) }
    {
        for seat in 0..self.notes.len() {
            if self.notes[seat] == note && self.has_work(seat as SeatNo, own) {
                return Some(seat as SeatNo);
            }
        }
        None
    }

    // Whether a seat has something to do; of its own, where that is asked.
    fn has_work(&self, seat: SeatNo, own: bool) -> bool
        requires { (plan : Plan) × (past : List Entry) × HasNotes plan past self.now }
        ensures { (plan : Plan) (past : List Entry) → HasNotes plan past self.now → result ≡ has_work plan past self.now.wish own seat }
    {
        if seat == 0 {
            self.core.has_come(self.wish)
        } else if own {
            self.core.has_own_source(seat)
        } else {
            self.core.has_come(Call::Take { seat })
        }
    }

    // Whether somebody rests.
    fn has_resting(&self) -> bool
        ensures { result ≡ false → NobodyRests self.now.notes.items }
    {
        for note in self.notes.as_slice() {
            if *note == Note::Resting {
                return true;
            }
        }
        false
    }
}
