ghost use Rattle.std.specs.Prelude.{◌≡◌, ◌≤◌, [], IfOk, None, length, true};
ghost use Rattle.task_base.specs.declared.limits.TheConstants.{MOST_BYTES};
ghost use Rattle.script_model.specs.Laws.Sound.{IsSound};
ghost use Rattle.live_core.specs.Opening.{guest_runner};
ghost use Rattle.event_text.specs.Mistakes.{are_right};
ghost use Rattle.order_model.specs.Plans.{plan_of};
ghost use Rattle.order_answer.specs.Answers.{HasFew, IsAnswer, IsAnswerTo};

use crate::bad::{BadEvents, bad_of};
use crate::said::{log_of, said_of};
use event_text::{EventFault, mistake_of, read_events};
use order_model::{Event, PlanKind};
use order_search::{Arranged, arrange};
use std::alloc::{AllocError, Global};
use task_base::{Entry, Rows, Script};

/// What is answered to the text of events.
#[derive(Drop)]
pub enum Answer {
    /// They may have come in an order of which this is the log.
    Order { log: Rows<Entry> },
    /// There is no order; this says why.
    NoOrder { said: Vec<u8> },
    /// The search took as many steps as it may; this says how far an order goes that it found.
    GaveUp { said: Vec<u8> },
    /// The text is that of no events which seats may have seen.
    Bad { bad: BadEvents },
}

/// Looks for an order of the events of a text, in which they may have come in a run of the script, or of its open plan, or where a
/// prefix is asked for, in the beginning of one. It takes so many steps at most; a step is one try of an event. The error is out of
/// memory.
pub fn answer_events(
    alloc: Global,
    script: &Script,
    kind: PlanKind,
    prefix: bool,
    most: u64,
    text: &[u8],
) -> Result<Answer, AllocError>
    requires plan { IsSound script.now }
    requires guest { kind ≡ PlanKind.Open → guest_runner script.now ≡ None }
    requires short { length text.now ≤ MOST_BYTES }
    ensures answer { IfOk result (IsAnswer (plan_of kind script.now) prefix text.now) }
    ensures few { IfOk result (HasFew kind) }
{
    let seen = match read_events(alloc, text) {
        Ok(seen) => seen,
        Err(EventFault::Bad { line }) => {
            let bad = BadEvents::NoEvent { line };
            return Ok(Answer::Bad { bad });
        }
        Err(EventFault::Memory(error)) => return Err(error),
    };
    if let Some(mistake) = mistake_of(script.workers, &seen) {
        let bad = bad_of(mistake);
        return Ok(Answer::Bad { bad });
    }
    answer_to(alloc, script, kind, prefix, most, &seen)
}

/// Looks for an order of these events. The error is out of memory.
fn answer_to(
    alloc: Global,
    script: &Script,
    kind: PlanKind,
    prefix: bool,
    most: u64,
    seen: &[Event],
) -> Result<Answer, AllocError>
    requires plan { IsSound script.now }
    requires guest { kind ≡ PlanKind.Open → guest_runner script.now ≡ None }
    requires few { length seen.now ≤ MOST_BYTES }
    requires right { are_right script.now.workers [] seen.now ≡ true }
    ensures answer { IfOk result (IsAnswerTo (plan_of kind script.now) prefix seen.now) }
    ensures few { IfOk result (HasFew kind) }
{
    match arrange(alloc, script, kind, prefix, seen, most)? {
        Arranged::Order { events } => {
            let log = log_of(alloc, &events)?;
            Ok(Answer::Order { log })
        }
        Arranged::NoOrder { events, rest } => {
            let head = b"no order\n";
            let said = said_of(alloc, script, kind, head, seen.len(), &events, &rest)?;
            Ok(Answer::NoOrder { said })
        }
        Arranged::GaveUp { events, rest } => {
            let head = b"gave up\n";
            let said = said_of(alloc, script, kind, head, seen.len(), &events, &rest)?;
            Ok(Answer::GaveUp { said })
        }
    }
}
