ghost use Rattle.std.specs.Prelude.{◌≡◌, ◌++◌, IfOk, OnOk};
ghost use Rattle.explain_text.specs.OpenJson.{number_key, open_cause_object, open_json, own_keys, own_name, own_object, part_key, part_keys};

use crate::json::{add_entry, add_number, at_work_object, cause_object};
use crate::open_plain::{part_number, told_as};
use crate::plain::seat_at;
use next_entry::{OpenCause, OpenTold, Part};
use std::alloc::{AllocError, Global};
use task_base::{Entry, Place, SeatNo};

/// What is said of a log of an open plan that is wrong at this line, counted from 1, as one compact JSON object and a line feed; of a
/// legal log nothing. The error is out of memory.
pub fn open_json(
    alloc: Global,
    line: u32,
    log: &[Entry],
    told: &OpenTold,
) -> Result<Vec<u8>, AllocError>
    ensures { IfOk result (λ text. text.items ≡ open_json line log.now told.now) }
{
    match told {
        OpenTold::Legal => Ok(Vec::new(alloc)),
        OpenTold::Barred { place, cause } => {
            open_cause_object(alloc, line, *place, seat_at(log, *place), cause)
        }
        OpenTold::AtWork { busy, .. } => at_work_object(alloc, line, busy),
    }
}

/// The object of a cause that holds of a seat at a place. The error is out of memory.
fn open_cause_object(
    alloc: Global,
    line: u32,
    place: Place,
    seat: SeatNo,
    cause: &OpenCause,
) -> Result<Vec<u8>, AllocError>
    ensures { IfOk result (λ text. text.items ≡ open_cause_object line place seat cause.now) }
{
    match told_as(cause) {
        Some(same) => cause_object(alloc, line, place, seat, &same, b""),
        None => own_object(alloc, line, place, seat, cause),
    }
}

/// The object of a cause that no script's log has. The error is out of memory.
fn own_object(
    alloc: Global,
    line: u32,
    place: Place,
    seat: SeatNo,
    cause: &OpenCause,
) -> Result<Vec<u8>, AllocError>
    ensures { IfOk result (λ text. text.items ≡ own_object line place seat cause.now) }
{
    let mut text = Vec::new(alloc);
    add_number(&mut text, b"{\"line\":", line)?;
    text.extend_from_slice(b",\"cause\":\"")?;
    text.extend_from_slice(own_name(cause))?;
    add_number(&mut text, b"\",\"seat\":", seat)?;
    add_own_keys(alloc, &mut text, place, seat, cause)?;
    text.extend_from_slice(b"}\n")?;
    Ok(text)
}

/// The word of the cause.
fn own_name(cause: &OpenCause) -> &'static [u8]
    ensures { result.now ≡ own_name cause.now }
{
    match *cause {
        OpenCause::Makes { .. } => b"makes",
        OpenCause::Over => b"over",
        OpenCause::Unfit { .. } => b"unfit",
        _ => b"",
    }
}

/// Adds what it names beside its seat. The error is out of memory.
fn add_own_keys(
    alloc: Global,
    text: &mut Vec<u8>,
    place: Place,
    seat: SeatNo,
    cause: &OpenCause,
) -> Result<(), AllocError>
    ensures { OnOk result (text.new.items ≡ text.old.items ++ own_keys place seat cause.now) }
{
    match *cause {
        OpenCause::Makes { next } => add_entry(alloc, text, place, &Entry { seat, kind: next }),
        OpenCause::Unfit { part } => add_part_keys(text, part),
        _ => Ok(()),
    }
}

/// Adds a part, and the task or the job that it names. The error is out of memory.
fn add_part_keys(text: &mut Vec<u8>, part: Part) -> Result<(), AllocError>
    ensures { OnOk result (text.new.items ≡ text.old.items ++ part_keys part) }
{
    text.extend_from_slice(part_key(part))?;
    match part_number(part) {
        Some(number) => add_number(text, number_key(part), number),
        None => Ok(()),
    }
}

/// The word of a part, as a key.
fn part_key(part: Part) -> &'static [u8]
    ensures { result.now ≡ part_key part }
{
    match part {
        Part::Undeclared => b",\"part\":\"undeclared\"",
        Part::PostedBefore { .. } => b",\"part\":\"posted_before\"",
        Part::OfStep { .. } => b",\"part\":\"of_step\"",
        Part::NoPoster => b",\"part\":\"no_poster\"",
        Part::DriverTakes => b",\"part\":\"driver_takes\"",
        Part::GuestTakes => b",\"part\":\"guest_takes\"",
        Part::Runs { .. } => b",\"part\":\"runs\"",
        Part::Holds { .. } => b",\"part\":\"holds\"",
        Part::RunsNothing => b",\"part\":\"runs_nothing\"",
        Part::HoldsNothing => b",\"part\":\"holds_nothing\"",
        Part::IsMain { .. } => b",\"part\":\"is_main\"",
        Part::IsPool { .. } => b",\"part\":\"is_pool\"",
        Part::ScopeOpen { .. } => b",\"part\":\"scope_open\"",
        Part::NoScope { .. } => b",\"part\":\"no_scope\"",
        Part::MayNotBlock { .. } => b",\"part\":\"may_not_block\"",
        Part::IsDone => b",\"part\":\"is_done\"",
        Part::JobPostedBefore { .. } => b",\"part\":\"job_posted_before\"",
        Part::JobUnposted { .. } => b",\"part\":\"job_unposted\"",
        Part::NotCancelled { .. } => b",\"part\":\"not_cancelled\"",
        Part::StartedBefore => b",\"part\":\"started_before\"",
        Part::NotStarted => b",\"part\":\"not_started\"",
    }
}

/// What the number of a part is of.
fn number_key(part: Part) -> &'static [u8]
    ensures { result.now ≡ number_key part }
{
    match part {
        Part::Holds { .. } => b",\"job\":",
        Part::JobPostedBefore { .. } => b",\"job\":",
        Part::JobUnposted { .. } => b",\"job\":",
        Part::NotCancelled { .. } => b",\"job\":",
        _ => b",\"task\":",
    }
}
