ghost use Rattle.std.specs.Prelude.{◌≡◌, ◌++◌, if◌then◌else◌, codes, decimal, IfOk, OnOk};
ghost use Rattle.next_entry.specs.Causes.{named_by};
ghost use Rattle.explain_text.specs.Json.{at_work_object, bar_key, busy_object, busy_objects, cause_keys, cause_name, cause_object, edge_key, entry_key, named_key, told_json};

use crate::plain::{named_by, seat_at};
use itoa::Buffer;
use next_entry::{Bar, Busy, Cause, Edge, Explanation, Work};
use run_log::json_row;
use std::alloc::{AllocError, Global};
use task_base::{Entry, Kind, Place, SeatNo};

/// What is said of a log that is wrong at this line, counted from 1, as one compact JSON object and a line feed; of a legal
/// log nothing. The error is want of memory.
pub fn told_json(
    alloc: Global,
    line: u32,
    log: &[Entry],
    told: &Explanation,
) -> Result<Vec<u8>, AllocError>
    ensures { IfOk result (λ text. text.items ≡ told_json line log.now told.now) }
{
    match told {
        Explanation::Legal => Ok(Vec::new(alloc)),
        Explanation::Barred { place, cause } => {
            cause_object(alloc, line, *place, seat_at(log, *place), cause, b"")
        }
        Explanation::Unfinished { place, seat, cause } => {
            cause_object(alloc, line, *place, *seat, cause, b",\"unfinished\":true")
        }
        Explanation::AtWork { busy, .. } => at_work_object(alloc, line, busy),
    }
}

/// The object of a cause that holds of a seat at a place. The error is want of memory.
pub(crate) fn cause_object(
    alloc: Global,
    line: u32,
    place: Place,
    seat: SeatNo,
    cause: &Cause,
    rest: &[u8],
) -> Result<Vec<u8>, AllocError>
    ensures { IfOk result (λ text. text.items ≡ cause_object line place seat cause.now rest.now) }
{
    let mut text = Vec::new(alloc);
    add_number(&mut text, b"{\"line\":", line)?;
    text.extend_from_slice(b",\"cause\":\"")?;
    text.extend_from_slice(cause_name(cause))?;
    add_number(&mut text, b"\",\"seat\":", seat)?;
    add_keys(&mut text, cause)?;
    add_named(alloc, &mut text, place, seat, cause)?;
    text.extend_from_slice(rest)?;
    text.extend_from_slice(b"}\n")?;
    Ok(text)
}

/// The object that names the seats that run or hold something. The error is want of memory.
pub(crate) fn at_work_object(alloc: Global, line: u32, busy: &[Busy]) -> Result<Vec<u8>, AllocError>
    ensures { IfOk result (λ text. text.items ≡ at_work_object line busy.now) }
{
    let mut text = Vec::new(alloc);
    add_number(&mut text, b"{\"line\":", line)?;
    text.extend_from_slice(b",\"cause\":\"at_work\",\"seats\":[")?;
    add_objects(&mut text, busy)?;
    text.extend_from_slice(b"],\"unfinished\":true}\n")?;
    Ok(text)
}

/// Adds the objects of seats that run or hold something, with commas between them. The error is want of memory.
fn add_objects(text: &mut Vec<u8>, busy: &[Busy]) -> Result<(), AllocError>
    ensures { OnOk result (text.new.items ≡ text.old.items ++ busy_objects busy.now) }
{
    let Some((first, others)) = busy.split_first() else {
        return Ok(());
    };
    add_object(text, first)?;
    for other in others {
        text.extend_from_slice(b",")?;
        add_object(text, other)?;
    }
    Ok(())
}

/// Adds the object of a seat, and of what it runs or holds. The error is want of memory.
fn add_object(text: &mut Vec<u8>, busy: &Busy) -> Result<(), AllocError>
    ensures { OnOk result (text.new.items ≡ text.old.items ++ busy_object busy.now) }
{
    add_number(text, b"{\"seat\":", busy.seat)?;
    match busy.work {
        Work::Task { task } => add_number(text, b",\"task\":", task)?,
        Work::Item { job } => add_number(text, b",\"job\":", job)?,
    }
    text.extend_from_slice(b"}")
}

/// Adds words and a number behind them. The error is want of memory.
pub(crate) fn add_number(text: &mut Vec<u8>, words: &[u8], number: u32) -> Result<(), AllocError>
    ensures { OnOk result (text.new.items ≡ text.old.items ++ words.now ++ decimal number) }
{
    text.extend_from_slice(words)?;
    text.extend_from_slice(Buffer::new().format(number).as_bytes())
}

/// The word of a cause.
fn cause_name(cause: &Cause) -> &'static [u8]
    ensures { result.now ≡ cause_name cause.now }
{
    match *cause {
        Cause::NoSeat => b"no_seat",
        Cause::OnlyDriver => b"only_driver",
        Cause::RunsNothing => b"runs_nothing",
        Cause::Runs { .. } => b"runs",
        Cause::Holds { .. } => b"holds",
        Cause::Wants { .. } => b"wants",
        Cause::Best { .. } => b"best",
        Cause::NoSource { .. } => b"no_source",
        Cause::Finished => b"finished",
        Cause::NotIdle { .. } => b"not_idle",
        Cause::Inside { .. } => b"inside",
        Cause::Blocked { .. } => b"blocked",
    }
}

/// Adds what a cause names beside its seat and its entry. The error is want of memory.
fn add_keys(text: &mut Vec<u8>, cause: &Cause) -> Result<(), AllocError>
    ensures { OnOk result (text.new.items ≡ text.old.items ++ cause_keys cause.now) }
{
    match *cause {
        Cause::Runs { task, .. } => add_number(text, b",\"task\":", task),
        Cause::Holds { job, .. } => add_number(text, b",\"job\":", job),
        Cause::Best { edge, .. } => text.extend_from_slice(edge_key(edge)),
        Cause::NoSource { bar } => text.extend_from_slice(bar_key(bar)),
        Cause::NotIdle { running, ready } => {
            add_number(text, b",\"running\":", running)?;
            text.extend_from_slice(ready_key(ready))
        }
        Cause::Inside { job, seats } => {
            add_number(text, b",\"job\":", job)?;
            add_number(text, b",\"seats\":", seats)
        }
        Cause::Blocked { count } => add_number(text, b",\"count\":", count),
        _ => Ok(()),
    }
}

/// What the best source has over another, as a key.
fn edge_key(edge: Edge) -> &'static [u8]
    ensures { result.now ≡ edge_key edge }
{
    match edge {
        Edge::Same => b",\"by\":\"same\"",
        Edge::Priority => b",\"by\":\"priority\"",
        Edge::Inside => b",\"by\":\"inside\"",
        Edge::Key => b",\"by\":\"key\"",
        Edge::Barred => b",\"by\":\"barred\"",
        Edge::Unready => b",\"by\":\"unready\"",
    }
}

/// What is against the take of the source that an entry takes, as a key.
fn bar_key(bar: Bar) -> &'static [u8]
    ensures { result.now ≡ bar_key bar }
{
    match bar {
        Bar::Unaccepted => b",\"why\":\"unaccepted\"",
        Bar::Taken => b",\"why\":\"taken\"",
        Bar::Cancelled => b",\"why\":\"cancelled\"",
        Bar::Forbidden => b",\"why\":\"forbidden\"",
        Bar::Unripe => b",\"why\":\"unripe\"",
        Bar::Busy => b",\"why\":\"busy\"",
        Bar::Claimed => b",\"why\":\"claimed\"",
        Bar::Full => b",\"why\":\"full\"",
        Bar::OtherSeat => b",\"why\":\"other_seat\"",
        Bar::Held => b",\"why\":\"held\"",
        Bar::Limit => b",\"why\":\"limit\"",
    }
}

/// Whether something may be taken, as a key.
fn ready_key(ready: bool) -> &'static [u8]
    ensures { result.now ≡ (if ready then codes ",\"ready\":true" else codes ",\"ready\":false") }
{
    if ready {
        b",\"ready\":true"
    } else {
        b",\"ready\":false"
    }
}

/// Adds the entry that would be allowed at the place, if one is named. The error is want of memory.
fn add_named(
    alloc: Global,
    text: &mut Vec<u8>,
    place: Place,
    seat: SeatNo,
    cause: &Cause,
) -> Result<(), AllocError>
    ensures { OnOk result (text.new.items ≡ text.old.items ++ named_key place seat (named_by cause.now)) }
{
    match named_by(cause) {
        None => Ok(()),
        Some(kind) => add_entry(alloc, text, place, &Entry { seat, kind }),
    }
}

/// Adds an entry at its place. The error is want of memory.
pub(crate) fn add_entry(
    alloc: Global,
    text: &mut Vec<u8>,
    place: Place,
    entry: &Entry,
) -> Result<(), AllocError>
    ensures { OnOk result (text.new.items ≡ text.old.items ++ entry_key place entry.now) }
{
    text.extend_from_slice(b",\"entry\":")?;
    let row = json_row(alloc, u64::from(place), entry)?;
    text.extend_from_slice(row.as_bytes())
}
