ghost use Rattle.std.specs.Prelude.{◌≡◌};
ghost use Rattle.run_log.specs.declared.json_fault.JsonFault.TheVariants.{Sink, Memory};

use env_io::Failed;
use std::alloc::AllocError;

/// Why a log was not written as JSON.
#[derive(Clone, Copy, Debug, PartialEq, Eq)]
pub enum JsonFault {
    /// A `put` failed.
    Sink(Failed),
    /// An allocation failed, and nothing was put.
    Memory(AllocError),
}

impl From<Failed> for JsonFault {
    ghost from_gives = { λ error fault. fault ≡ Sink error };

    fn from(error: Failed) -> JsonFault {
        JsonFault::Sink(error)
    }
}

impl From<AllocError> for JsonFault {
    ghost from_gives = { λ error fault. fault ≡ Memory error };

    fn from(error: AllocError) -> JsonFault {
        JsonFault::Memory(error)
    }
}
