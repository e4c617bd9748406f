ghost use Rattle.std.specs.Prelude.{◌≡◌};
ghost use Rattle.queue_selector.specs.Sorted.{sooner_of};

use task_base::{Lane, QueueId};

/// After how many delayed tasks in a row an immediate one of the class that waits goes first (Chromium's
/// `kMaxDelayedStarvationTasks` of `task_queue_selector.h`).
pub const MOST_DELAYED: u32 = 3;

/// The first task of one lane of a main queue, which may run.
#[derive(Clone, Copy, Debug)]
pub struct Front {
    /// The class of its queue.
    pub class: u8,
    /// Its lane.
    pub lane: Lane,
    /// Its order.
    pub order: u64,
    /// Its queue.
    pub queue: QueueId,
}

/// Which of the first fronts of the two lanes of a class runs first: the one of the lesser order, or the immediate one
/// once the streak is long.
pub(crate) fn sooner(streak: u32, immediate: Option<Front>, delayed: Option<Front>) -> Option<Front>
    ensures { result ≡ sooner_of streak immediate delayed }
{
    match (immediate, delayed) {
        (Some(immediate), Some(delayed))
            if streak < MOST_DELAYED && delayed.order < immediate.order => { Some(delayed) }
        (None, delayed) => delayed,
        (immediate, _) => immediate,
    }
}
