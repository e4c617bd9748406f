ghost use Rattle.std.specs.Prelude.{◌≡◌};
ghost use Rattle.sequence_queue.specs.Ranked.{rank_below};

use task_base::{Key, Priority};

/// What decides between two sources: the lesser rank goes first. It has the higher priority, then fewer workers
/// inside, then the lesser key (Chromium's `TaskSourceSortKey` of `thread_pool/task_source_sort_key.h`; the ties are
/// this project's own rule).
#[derive(Clone, Copy, Debug, PartialEq, Eq)]
pub struct Rank {
    /// How much the work matters.
    pub priority: Priority,
    /// How many workers are inside a job; 0 for a sequence.
    pub inside: u32,
    /// The key of a sequence's head, or of a job.
    pub key: Key,
}

impl Rank {
    /// Whether this rank goes before the other.
    pub fn is_below(&self, other: &Rank) -> bool
        ensures { result ≡ rank_below self.now other.now }
    {
        if self.priority != other.priority {
            self.priority > other.priority
        } else if self.inside != other.inside {
            self.inside < other.inside
        } else {
            self.key.is_below(&other.key)
        }
    }
}
