ghost use Rattle.std.specs.Prelude.{◌≡◌};
ghost use Rattle.live_request.specs.Opening.{opened_of};

use crate::codes;
use crate::live::Live;
use task_base::RunnerId;
use thiserror::Error;

/// Why a plan opened nothing.
#[derive(Clone, Copy, Debug, PartialEq, Eq, Error)]
pub enum Unopened {
    /// There is no memory for it; nothing is left made.
    #[error("out of memory")]
    OutOfMemory,
    /// The text has more than `MOST_BYTES` bytes.
    #[error("the plan is too long")]
    TooLong,
    /// The text is no script. This is its first bad line, counted from 1, and the number of the rule that it breaks first.
    #[error("line {line} of the plan is bad, by reason {reason}")]
    NoPlan { line: u32, reason: u8 },
    /// The script has actions, of which a plan has none. This is the line of the first.
    #[error("line {line} of the plan is an action")]
    HasActions { line: u32 },
    /// The runner is bound to the last seat, the guest's, which takes nothing: its tasks would never start.
    #[error("runner {runner} is bound to the last seat, which is the guest's")]
    GuestRunner { runner: RunnerId },
}

/// What came of a plan, for C. `codes` has the reasons.
#[repr(C)]
#[derive(Clone, Copy, Debug)]
pub struct Opened {
    /// Whether it was opened, or why not.
    pub reason: u32,
    /// The line that is bad, or is an action, counted from 1; 0 where a text is too long, and for the other reasons.
    pub line: u32,
    /// Of a bad line the number of the rule that it breaks; of a runner of the guest's its number.
    pub number: u32,
}

impl Opened {
    /// What came of a plan.
    pub fn of(outcome: &Result<Live, Unopened>) -> Opened
        ensures { result ≡ opened_of outcome.now }
    {
        let (reason, line, number) = match *outcome {
            Ok(_) => (codes::OPENED, 0, 0),
            Err(Unopened::OutOfMemory) => (codes::OUT_OF_MEMORY, 0, 0),
            Err(Unopened::TooLong) => (codes::NO_PLAN, 0, 0),
            Err(Unopened::NoPlan { line, reason }) => (codes::NO_PLAN, line, u32::from(reason)),
            Err(Unopened::HasActions { line }) => (codes::HAS_ACTIONS, line, 0),
            Err(Unopened::GuestRunner { runner }) => (codes::GUEST_RUNNER, 0, runner),
        };
        Opened {
            reason,
            line,
            number,
        }
    }
}
