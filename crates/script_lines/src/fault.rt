ghost use Rattle.std.specs.Prelude.{◌≡◌, true, false, MatchResult, Err, alloc_error};
ghost use Rattle.script_lines.specs.declared.fault.LineFault.TheVariants.{Bad, Memory};

use line_words::Reason;
use std::alloc::{AllocError, AllocFailed};

/// Why a line says nothing.
#[derive(Clone, Copy, Debug, PartialEq, Eq)]
pub enum LineFault {
    /// The line breaks a rule, whose number this is: the least of those that its words break.
    Bad { reason: u8 },
    /// An allocation failed.
    Memory(AllocError),
}

impl From<AllocError> for LineFault {
    ghost from_gives = { λ error fault. fault ≡ Memory error };

    fn from(error: AllocError) -> LineFault {
        LineFault::Memory(error)
    }
}

impl<T: Drop> From<AllocFailed<T>> for LineFault {
    ghost from_gives = { λ _ fault. fault ≡ Memory alloc_error };

    fn from(_error: AllocFailed<T>) -> LineFault {
        LineFault::Memory(AllocError)
    }
}

impl From<Reason> for LineFault {
    ghost from_gives = { λ reason fault. fault ≡ Bad reason };

    fn from(reason: Reason) -> LineFault {
        LineFault::Bad {
            reason: reason.number(),
        }
    }
}

/// The reason, where the test holds.
pub fn refuse(test: bool, reason: u8) -> Result<(), LineFault>
    ensures { MatchResult result (λ _. test ≡ false) (λ fault. (test ≡ true) × (fault ≡ Bad reason)) }
{
    if test {
        return Err(LineFault::Bad { reason });
    }
    Ok(())
}
