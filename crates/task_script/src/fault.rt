ghost use Rattle.std.specs.Prelude.{◌≡◌, alloc_error};
ghost use Rattle.task_script.specs.declared.fault.ScriptFault.TheVariants.{Memory};

use std::alloc::{AllocError, AllocFailed};

/// Why bytes gave no script.
#[derive(Clone, Copy, Debug, PartialEq, Eq)]
pub enum ScriptFault {
    /// The bytes are no script. `line` is the first bad line, counted from 1, and `reason` the number of the rule that it
    /// breaks: the least of those that it breaks.
    Bad { line: u32, reason: u8 },
    /// An allocation failed.
    Memory(AllocError),
}

impl From<AllocError> for ScriptFault {
    ghost from_gives = { λ error fault. fault ≡ Memory error };

    fn from(error: AllocError) -> ScriptFault {
        ScriptFault::Memory(error)
    }
}

impl<T: Drop> From<AllocFailed<T>> for ScriptFault {
    ghost from_gives = { λ _ fault. fault ≡ Memory alloc_error };

    fn from(_error: AllocFailed<T>) -> ScriptFault {
        ScriptFault::Memory(AllocError)
    }
}
