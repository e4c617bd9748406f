ghost use Rattle.std.specs.Prelude.{◌≡◌, alloc_error};
ghost use Rattle.run_log.specs.declared.fault.LogFault.TheVariants.{Memory};

use std::alloc::{AllocError, AllocFailed};

/// Why bytes gave no log.
#[derive(Clone, Copy, Debug, PartialEq, Eq)]
pub enum LogFault {
    /// The bytes are the text of no log. This line, counted from 1, is the first that is not right. Right are a first line that
    /// says version 2, the line of an entry at its place, and in version 2 a last line that says how many entries there are.
    /// Where that one is missing, it is the line behind the last.
    Bad { line: u32 },
    /// An allocation failed.
    Memory(AllocError),
}

impl From<AllocError> for LogFault {
    ghost from_gives = { λ error fault. fault ≡ Memory error };

    fn from(error: AllocError) -> LogFault {
        LogFault::Memory(error)
    }
}

impl<T: Drop> From<AllocFailed<T>> for LogFault {
    ghost from_gives = { λ _ fault. fault ≡ Memory alloc_error };

    fn from(_error: AllocFailed<T>) -> LogFault {
        LogFault::Memory(AllocError)
    }
}
