ghost use Rattle.std.specs.Prelude.{◌≡◌, ◌++◌, ◌<◌, ◌≤◌, ◌^◌, ℕ, List, None, decimal, length, IfOk, OnOk};
ghost use Rattle.task_base.specs.declared.limits.TheConstants.{MOST_BYTES};
ghost use Rattle.script_model.specs.Laws.Sound.{IsSound};
ghost use Rattle.log_model.specs.LogText.{text_from};
ghost use Rattle.hist_model.specs.Legal.{IsLegal};
ghost use Rattle.live_core.specs.Opening.{guest_runner};
ghost use Rattle.order_model.specs.Orders.{entries_of};
ghost use Rattle.order_model.specs.Plans.{plan_of};
ghost use Rattle.order_answer.specs.Said.{IsAgainst, beginning_text, count_text, found_text};

use crate::against::add_against;
use entry_lines::line;
use itoa::Buffer;
use log_model::Version;
use order_model::{Event, PlanKind};
use run_log::head_of;
use std::alloc::{AllocError, Global};
use task_base::{Entry, Place, Rows, Script};

/// What is said of a search that found these events for the longest beginning of an order, of all that many, and left the rest. The
/// error is out of memory.
pub(crate) fn said_of(
    alloc: Global,
    script: &Script,
    kind: PlanKind,
    head: &[u8],
    all: usize,
    events: &[Event],
    rest: &[Event],
) -> Result<Vec<u8>, AllocError>
    requires plan { IsSound script.now }
    requires guest { kind ≡ PlanKind.Open → guest_runner script.now ≡ None }
    requires legal { IsLegal (plan_of kind script.now) (entries_of events.now) }
    requires few { length events.now ≤ MOST_BYTES }
    ensures { IfOk result (λ said. (lines : List ℕ) × IsAgainst (plan_of kind script.now) events.now rest.now lines
        × (said.items ≡ found_text head.now events.now all lines)) }
{
    let mut said = Vec::new(alloc);
    said.extend_from_slice(head)?;
    add_count(&mut said, events.len(), all)?;
    add_against(alloc, &mut said, script, kind, events, rest)?;
    add_beginning(alloc, &mut said, events)?;
    Ok(said)
}

/// Adds how many of all events can be arranged. The error is out of memory.
fn add_count(said: &mut Vec<u8>, count: usize, all: usize) -> Result<(), AllocError>
    ensures { OnOk result (said.new.items ≡ said.old.items ++ count_text count all) }
{
    add_number(said, b"", count as u64)?;
    add_number(said, b" of ", all as u64)?;
    said.extend_from_slice(b" events can be arranged\n")
}

/// Adds the beginning of the log that these events make. The error is out of memory.
fn add_beginning(alloc: Global, said: &mut Vec<u8>, events: &[Event]) -> Result<(), AllocError>
    requires { length events.now < 2 ^ 32 }
    ensures { OnOk result (said.new.items ≡ said.old.items ++ beginning_text events.now) }
{
    said.extend_from_slice(head_of(Version::Two))?;
    let log = log_of(alloc, events)?;
    add_lines(said, log.as_slice())
}

/// The entries of events. The error is out of memory.
pub(crate) fn log_of(alloc: Global, events: &[Event]) -> Result<Rows<Entry>, AllocError>
    ensures { IfOk result (λ log. log.items ≡ entries_of events.now) }
{
    let mut log = Vec::with_capacity(alloc, events.len())?;
    for event in events {
        log.push(event.entry)?;
    }
    Ok(Rows::from_vec(log))
}

/// Adds the lines of entries, as a log has them. The error is out of memory.
fn add_lines(said: &mut Vec<u8>, log: &[Entry]) -> Result<(), AllocError>
    requires { length log.now < 2 ^ 32 }
    ensures { OnOk result (said.new.items ≡ said.old.items ++ text_from 0 log.now) }
{
    for (place, entry) in log.iter().enumerate() {
        said.extend_from_slice(&line(place as Place, entry))?;
    }
    Ok(())
}

/// Adds words and a number after them. The error is out of memory.
fn add_number(said: &mut Vec<u8>, words: &[u8], number: u64) -> Result<(), AllocError>
    ensures { OnOk result (said.new.items ≡ said.old.items ++ words.now ++ decimal number) }
{
    said.extend_from_slice(words)?;
    said.extend_from_slice(Buffer::new().format(number).as_bytes())
}
