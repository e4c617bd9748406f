ghost use Rattle.std.specs.Prelude.{◌≡◌, ◌<◌, ◌^◌, List, length};
ghost use Rattle.task_base.specs.declared.entry.Entry.{Entry as AnyEntry};
ghost use Rattle.log_context.specs.Seen.{last_marked, seen_after, stands_as, tells};

use crate::fact::{Fact, Role};
use crate::mark::{Mark, is_marked};
use task_base::{Entry, Place};

/// An entry, and its place.
#[derive(Clone, Copy, Debug)]
pub struct Seen {
    pub place: Place,
    pub entry: Entry,
}

/// The last entry that is what is looked for, if there is one.
pub fn last_marked(mark: Mark, past: &[Entry]) -> Option<Seen>
    requires { length past.now < 2 ^ 32 }
    ensures { result ≡ last_marked mark past.now }
{
    let mut last = None;
    let mut place = 0;
    for entry in past {
        last = seen_after(mark, place, last, entry);
        place += 1;
    }
    last
}

/// What was seen last after an entry at this place.
fn seen_after(mark: Mark, place: Place, last: Option<Seen>, entry: &Entry) -> Option<Seen>
    ensures { (before : List AnyEntry) → place ≡ length before → result ≡ seen_after mark before last entry.now }
{
    if is_marked(mark, entry) {
        Some(Seen {
            place,
            entry: *entry,
        })
    } else {
        last
    }
}

/// That an entry is this to the one that may not come.
pub fn stands_as(role: Role, seen: Option<Seen>) -> Option<Fact>
    ensures { result ≡ stands_as role seen }
{
    let Seen { place, entry } = seen?;
    Some(Fact::Stands { role, place, entry })
}

/// That the last entry which is what is looked for is this to the one that may not come.
pub fn tells(role: Role, mark: Mark, past: &[Entry]) -> Option<Fact>
    requires { length past.now < 2 ^ 32 }
    ensures { result ≡ tells role mark past.now }
{
    stands_as(role, last_marked(mark, past))
}
