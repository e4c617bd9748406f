//! The mode `arrange`.
ghost use Rattle.std.specs.Prelude.{◌≡◌, ◌≢◌, ℕ, Option, Some, Err, false, IfErr};
ghost use Rattle.app_modes.specs.Failures.{failure_status, is_verdict};
ghost use Rattle.command_line.specs.declared.words.Command.TheVariants.{Arrange};
ghost use Rattle.app_streams.specs.Ends.{ends};
ghost use Rattle.app_streams.specs.Taken.{TookMore, TookWithin};
ghost use Rattle.app_modes.specs.Outcome.{EndsIn};

use crate::failure::Failure;
use app_streams::{parts_of, script_of, take_all, write, write_text};
use env_io::{Sink, Source};
use order_answer::{Answer, answer_events};
use order_model::PlanKind;
use std::alloc::Global;
use task_base::Fault;

/// Reads a script from the source, to its end, and after it what each seat saw, and writes the log of an order of it, in which it
/// may have come; or where there is none, or after `most` steps none was found, that, and how far the events go.
pub fn arrange<S: Source, K: Sink>(
    alloc: Global,
    prefix: bool,
    most: u64,
    source: &mut S,
    sink: &mut K,
) -> Result<(), Failure>
    ensures outcome { (told : ℕ → Option ℕ) → EndsIn (Some (Arrange prefix most)) told
        (ends (S.left source.old) (S.left source.new) (S.faults source.old) (S.faults source.new))
        (ends (K.holds sink.old) (K.holds sink.new) (K.faults sink.old) (K.faults sink.new)) result }
    ensures sink_kept { IfErr result (λ failure. is_verdict failure ≡ false → failure_status failure ≢ 5 → sink.new ≡ sink.old) }
    ensures took_more { result ≡ Err (Failure.Common Fault.TooLarge)
        → TookMore (ends (S.left source.old) (S.left source.new) (S.faults source.old) (S.faults source.new)) }
    ensures took_within { result ≢ Err (Failure.Common Fault.TooLarge)
        → TookWithin (ends (S.left source.old) (S.left source.new) (S.faults source.old) (S.faults source.new)) }
    ensures source_steady { result ≢ Err (Failure.Common Fault.ReadFault) → S.faults source.new ≡ S.faults source.old }
    ensures sink_steady { result ≢ Err (Failure.Common Fault.WriteFault) → K.faults sink.new ≡ K.faults sink.old }
{
    let bytes = take_all(alloc, source)?;
    let (text, events) = parts_of(&bytes);
    let script = script_of(alloc, text)?;
    match answer_events(alloc, &script, PlanKind::Closed, prefix, most, events) {
        Ok(Answer::Order { log }) => Ok(write(alloc, sink, &log, false)?),
        Ok(Answer::NoOrder { said }) => {
            write_text(sink, &said)?;
            Err(Failure::NoOrder)
        }
        Ok(Answer::GaveUp { said }) => {
            write_text(sink, &said)?;
            Err(Failure::GaveUp)
        }
        Ok(Answer::Bad { bad }) => Err(Failure::BadEvents(bad)),
        Err(error) => Err(Failure::Common(Fault::NoMemory(error))),
    }
}
