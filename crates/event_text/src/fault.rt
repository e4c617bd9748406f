ghost use Rattle.std.specs.Prelude.{◌≡◌, alloc_error};
ghost use Rattle.event_text.specs.declared.fault.EventFault.TheVariants.{Memory};

use std::alloc::{AllocError, AllocFailed};
use thiserror::Error;

/// Why bytes gave no events.
#[derive(Clone, Copy, Debug, PartialEq, Eq, Error)]
pub enum EventFault {
    /// The bytes are the text of no events. This line, counted from 1, is the first that is that of none.
    #[error("line {line} is that of no event")]
    Bad { line: u32 },
    /// An allocation failed.
    #[error("out of memory")]
    Memory(AllocError),
}

impl From<AllocError> for EventFault {
    ghost from_gives = { λ error fault. fault ≡ Memory error };

    fn from(error: AllocError) -> EventFault {
        EventFault::Memory(error)
    }
}

impl<T: Drop> From<AllocFailed<T>> for EventFault {
    ghost from_gives = { λ _ fault. fault ≡ Memory alloc_error };

    fn from(_error: AllocFailed<T>) -> EventFault {
        EventFault::Memory(AllocError)
    }
}
