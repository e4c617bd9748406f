ghost use Rattle.std.specs.Prelude.{◌≡◌, ◌≤◌, length};
ghost use Rattle.app_modes.specs.declared.failure.Failure.TheVariants.{Common};
ghost use Rattle.app_modes.specs.Failures.{failure_note, failure_status, is_verdict};
ghost use Rattle.app_modes.specs.Outcome.{in_common};

use line_text::Line;
use nested_loop::NestFault;
use open_check::BadPlan;
use order_answer::BadEvents;
use task_base::Fault;
use task_reply::ReplyFault;

/// Why a command did not end with status 0 (this project's own).
#[derive(Debug, PartialEq, Eq, Drop)]
pub enum Failure {
    /// What may end a command of any mode.
    Common(Fault),
    /// In `lint`: the input is none, which is said by then.
    Linted,
    /// In `arrange`: there is no order, which is said by then.
    NoOrder,
    /// In `arrange`: the search took as many steps as it may, which is said by then.
    GaveUp,
    /// In `arrange`: what stands after the script are no events which its seats may have seen.
    BadEvents(BadEvents),
    /// With `--open`: the script is not that of an open plan.
    BadPlan(BadPlan),
    /// In `trace`: the log is not that of a run of the script, whole or with `--prefix` begun; `line` counts from 1.
    NotTraced { line: u32 },
    /// In `reply`: a reply line breaks a rule. `line` counts from 1, behind the line `%%`.
    BadReplies { line: u32, reason: u8 },
    /// In `nest`: a line of the nest script breaks a rule. `line` counts from 1.
    BadNest { line: u32, reason: u8 },
}

impl From<Fault> for Failure {
    ghost from_gives = { λ fault failure. failure ≡ Common fault };

    fn from(fault: Fault) -> Failure {
        Failure::Common(fault)
    }
}

impl Failure {
    /// The exit status, from 1 to 8.
    pub fn status(&self) -> u8
        ensures status { result ≡ failure_status self.now }
        ensures above { 1 ≤ result }
    {
        match self {
            Failure::Common(fault) => fault.status(),
            Failure::Linted | Failure::NoOrder | Failure::NotTraced { .. } => 1,
            Failure::GaveUp => 8,
            Failure::BadEvents(_) | Failure::BadPlan(_) => 3,
            Failure::BadReplies { .. } | Failure::BadNest { .. } => 3,
        }
    }

    /// Whether it is a verdict, which is written: that a log is not legal, that an input is none, or that no order was found.
    pub fn is_verdict(&self) -> bool
        ensures { result ≡ is_verdict self.now }
    {
        matches!(
            self,
            Failure::Common(Fault::NotLegal { .. })
                | Failure::Linted
                | Failure::NoOrder
                | Failure::GaveUp
        )
    }

    /// What is told of the failure, without a line feed. It takes no memory.
    pub fn note(&self) -> Line
        ensures note { result.items ≡ failure_note self.now }
        ensures short { length result.items ≤ 110 }
    {
        match *self {
            Failure::Common(ref fault) => fault.note(),
            Failure::Linted | Failure::NoOrder | Failure::GaveUp => Line::new(),
            Failure::BadEvents(bad) => bad.note(),
            Failure::BadPlan(bad) => bad.note(),
            Failure::NotTraced { line } => Fault::NotLegal { line }.note(),
            Failure::BadReplies { line, reason } => ReplyFault::Bad { line, reason }.note(),
            Failure::BadNest { line, reason } => NestFault::Bad { line, reason }.note(),
        }
    }
}

/// The same end of a command, where any fault may be one.
pub(crate) fn common(end: Result<(), Fault>) -> Result<(), Failure>
    ensures { result ≡ in_common end }
{
    match end {
        Ok(()) => Ok(()),
        Err(fault) => Err(Failure::Common(fault)),
    }
}
