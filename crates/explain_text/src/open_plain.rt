ghost use Rattle.std.specs.Prelude.{◌≡◌, ◌+◌, ◌≤◌, ◌++◌, length};
ghost use Rattle.explain_text.specs.OpenPlain.{open_cause_line, open_text, own_line, part_after, part_before, part_number, part_words, told_as};
ghost use Rattle.explain_text.specs.Plain.{around};

use crate::plain::{add_at_work, cause_text, seat_at};
use line_text::{Line, add, add_decimal};
use next_entry::{Cause, OpenCause, OpenTold, Part};
use task_base::{Entry, Place, SeatNo};

/// What is said of a log of an open plan, in one line of at most 256 bytes; of a legal log nothing.
pub fn open_text(log: &[Entry], told: &OpenTold) -> Line
    ensures { result.items ≡ open_text log.now told.now }
{
    match told {
        OpenTold::Legal => Line::new(),
        OpenTold::Barred { place, cause } => open_cause_text(*place, seat_at(log, *place), cause),
        OpenTold::AtWork { busy, .. } => {
            let mut line = Line::new();
            add_at_work(&mut line, b"unfinished: still at work", busy);
            line
        }
    }
}

/// What stands against an entry of a seat at a place in an open plan, and the entry that its call makes there instead, if it makes one:
/// one line of at most 256 bytes.
pub fn open_cause_text(place: Place, seat: SeatNo, cause: &OpenCause) -> Line
    ensures items { result.items ≡ open_cause_line place seat cause.now }
    ensures short { length result.items ≤ 256 }
{
    match told_as(cause) {
        Some(same) => cause_text(place, seat, &same),
        None => own_text(place, seat, cause),
    }
}

/// The cause of a script's log that says the same, where there is one.
pub(crate) fn told_as(cause: &OpenCause) -> Option<Cause>
    ensures { result ≡ told_as cause.now }
{
    match *cause {
        OpenCause::NoSeat => Some(Cause::NoSeat),
        OpenCause::OnlyDriver => Some(Cause::OnlyDriver),
        OpenCause::Best { next, edge } => Some(Cause::Best { next, edge }),
        OpenCause::NoSource { bar } => Some(Cause::NoSource { bar }),
        OpenCause::NotIdle { running, ready } => Some(Cause::NotIdle { running, ready }),
        OpenCause::Inside { job, seats } => Some(Cause::Inside { job, seats }),
        OpenCause::Blocked { count } => Some(Cause::Blocked { count }),
        OpenCause::Makes { .. } | OpenCause::Over | OpenCause::Unfit { .. } => None,
    }
}

/// What is said where the cause is one that no script's log has.
fn own_text(place: Place, seat: SeatNo, cause: &OpenCause) -> Line
    ensures items { result.items ≡ own_line place seat cause.now }
    ensures short { length result.items ≤ 256 }
{
    match *cause {
        OpenCause::Makes { next } => {
            let mut line = around(b"seat ", seat, b" may make in its place: ");
            add(
                &mut line,
                &entry_lines::line(place, &Entry { seat, kind: next }),
            );
            line
        }
        OpenCause::Over => around(
            b"shutdown is done, and nothing is left for seat ",
            seat,
            b"\n",
        ),
        OpenCause::Unfit { part } => {
            let mut line = around(b"seat ", seat, b" may not make this: ");
            add_part(&mut line, part);
            add(&mut line, b"\n");
            line
        }
        _ => Line::new(),
    }
}

/// Words with a number between them: at most 60 bytes of words.
fn around(before: &[u8], number: u32, after: &[u8]) -> Line
    requires { length before.now + length after.now ≤ 60 }
    ensures items { result.items ≡ around before.now number after.now }
    ensures short { length result.items ≤ 80 }
{
    let mut line = Line::new();
    add(&mut line, before);
    add_decimal(&mut line, u64::from(number));
    add(&mut line, after);
    line
}

/// Adds why the seat may not make the call.
fn add_part(line: &mut Line, part: Part)
    requires { length line.old.items ≤ 80 }
    ensures items { line.new.items ≡ line.old.items ++ part_words part }
    ensures short { length line.new.items ≤ 200 }
{
    add(line, part_before(part));
    if let Some(number) = part_number(part) {
        add_decimal(line, u64::from(number));
        add(line, part_after(part));
    }
}

/// The task or the job that a part names.
pub(crate) fn part_number(part: Part) -> Option<u32>
    ensures { result ≡ part_number part }
{
    match part {
        Part::PostedBefore { task }
        | Part::OfStep { task }
        | Part::Runs { task }
        | Part::IsMain { task }
        | Part::IsPool { task }
        | Part::ScopeOpen { task }
        | Part::NoScope { task }
        | Part::MayNotBlock { task } => Some(task),
        Part::Holds { job }
        | Part::JobPostedBefore { job }
        | Part::JobUnposted { job }
        | Part::NotCancelled { job } => Some(job),
        _ => None,
    }
}

/// The words before it; all words, where there is none.
fn part_before(part: Part) -> &'static [u8]
    ensures words { result.now ≡ part_before part }
    ensures short { length result.now ≤ 60 }
{
    match part {
        Part::Undeclared => b"it names what is not declared, or a number out of its range",
        Part::PostedBefore { .. } => b"task ",
        Part::OfStep { .. } => b"a step posts task ",
        Part::NoPoster => b"it runs no task",
        Part::DriverTakes => b"the driver takes nothing of the pool",
        Part::GuestTakes => b"it is the guest's, which takes nothing",
        Part::Runs { .. } => b"it runs task ",
        Part::Holds { .. } => b"it is inside job ",
        Part::RunsNothing => b"it runs no task",
        Part::HoldsNothing => b"it holds no item",
        Part::IsMain { .. } => b"it runs task ",
        Part::IsPool { .. } => b"it runs task ",
        Part::ScopeOpen { .. } => b"a blocking scope of task ",
        Part::NoScope { .. } => b"no blocking scope of task ",
        Part::MayNotBlock { .. } => b"task ",
        Part::IsDone => b"shutdown is done",
        Part::JobPostedBefore { .. } => b"job ",
        Part::JobUnposted { .. } => b"job ",
        Part::NotCancelled { .. } => b"job ",
        Part::StartedBefore => b"shutdown was started before",
        Part::NotStarted => b"shutdown was not started",
    }
}

/// The words after it.
fn part_after(part: Part) -> &'static [u8]
    ensures words { result.now ≡ part_after part }
    ensures short { length result.now ≤ 40 }
{
    match part {
        Part::PostedBefore { .. } => b" was posted before",
        Part::OfStep { .. } => b", and it runs no task with such a step",
        Part::IsMain { .. } => b", a main task",
        Part::IsPool { .. } => b", which is no main task",
        Part::ScopeOpen { .. } => b" is open",
        Part::NoScope { .. } => b" is open",
        Part::MayNotBlock { .. } => b" may not block",
        Part::JobPostedBefore { .. } => b" was posted before",
        Part::JobUnposted { .. } => b" was not posted",
        Part::NotCancelled { .. } => b" was not cancelled",
        _ => b"",
    }
}
