ghost use Rattle.std.specs.Prelude.{◌≡◌};
ghost use Rattle.trace_json.specs.declared.fault.TraceFault.TheVariants.{Sink, Memory};

use env_io::Failed;
use std::alloc::AllocError;

/// Why a trace was not written.
#[derive(Clone, Copy, Debug, PartialEq, Eq)]
pub enum TraceFault {
    /// A `put` failed.
    Sink(Failed),
    /// An allocation failed, and nothing was put.
    Memory(AllocError),
}

impl From<Failed> for TraceFault {
    ghost from_gives = { λ error fault. fault ≡ Sink error };

    fn from(error: Failed) -> TraceFault {
        TraceFault::Sink(error)
    }
}

impl From<AllocError> for TraceFault {
    ghost from_gives = { λ error fault. fault ≡ Memory error };

    fn from(error: AllocError) -> TraceFault {
        TraceFault::Memory(error)
    }
}
