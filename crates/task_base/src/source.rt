ghost use Rattle.std.specs.Prelude.{◌≡◌};
ghost use Rattle.task_base.specs.Keys.{key_below};

use crate::script::{JobId, Place, SeqId};

/// What decides between two tasks of one sequence, and between two sources of one priority: the lesser key goes
/// first. Keys are compared by their fields, in this order (this project's own rule).
#[derive(Clone, Copy, Debug, PartialEq, Eq, PartialOrd, Ord)]
pub struct Key {
    /// Where the work became ready: the place of its post, or of the tick that made a delayed task ripe.
    pub place: Place,
    /// The ripe moment of a delayed task, in microseconds; else 0.
    pub ripe: u64,
    /// The place of the post.
    pub post: Place,
}

impl Key {
    /// Whether this key goes before the other: `<` is the order of the rules.
    pub fn is_below(&self, other: &Key) -> bool
        ensures { result ≡ key_below self.now other.now }
    {
        self < other
    }
}

/// What a worker takes work from (Chromium's `TaskSource` of `thread_pool/task_source.h`).
#[derive(Clone, Copy, Debug, PartialEq, Eq)]
pub enum TaskSource {
    /// A sequence, by its number.
    Sequence(SeqId),
    /// A job, by its number.
    Job(JobId),
}

/// Why a wait of the driver has not come to its end (this project's own rule).
#[derive(Clone, Copy, Debug, PartialEq, Eq)]
pub struct NotYet {
    /// How many seats run what is waited for.
    pub running: u32,
    /// Whether there is work that a seat could take or enter now.
    pub ready: bool,
}
