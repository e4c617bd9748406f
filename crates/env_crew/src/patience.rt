use crossbeam_utils::Backoff;

// How many looks that find nothing the driver makes before it may rest. A wait is mostly short.
const LOOKS_BEFORE_REST: u32 = 200;

/// How long the driver goes on looking for what it waits for, before it rests. No clause speaks of it: nothing is claimed of
/// waiting.
#[derive(Drop)]
pub(crate) struct Patience {
    backoff: Backoff,
    // The looks that found nothing since it last found something.
    looks: u32,
}

impl Patience {
    /// The patience of a driver that has not looked yet.
    pub(crate) fn new() -> Patience {
        Patience {
            backoff: Backoff::new(),
            looks: 0,
        }
    }

    /// A look found nothing: it waits a little, longer each time.
    pub(crate) fn wait(&mut self) {
        self.backoff.snooze();
        self.looks = self.looks.saturating_add(1);
    }

    /// Whether it has looked often enough, and may rest.
    pub(crate) fn is_over(&self) -> bool {
        self.looks >= LOOKS_BEFORE_REST
    }

    /// It found something, and begins anew.
    pub(crate) fn reset(&mut self) {
        self.backoff.reset();
        self.looks = 0;
    }
}
