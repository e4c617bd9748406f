ghost use Rattle.std.specs.Prelude.{◌≡◌, ◌+◌, ◌-◌, ◌<◌, ◌≤◌, ◌^◌, [], true, MatchOption, length};
ghost use Rattle.task_base.specs.declared.limits.TheConstants.{MOST_WORKERS};
ghost use Rattle.event_text.specs.Mistakes.{IsFirstMistake, are_right, is_backwards, latest_after, line_barring, mistake_with};

use order_model::{Event, Span};
use task_base::MOST_WORKERS;

// One place for each seat, that of the driver among them.
const PLACES: usize = MOST_WORKERS as usize + 1;

/// What is wrong with an event that is spelt well. Lines are counted from 1, one for each event.
#[derive(Clone, Copy, Debug, PartialEq, Eq)]
pub enum EventMistake {
    /// There is no such seat: they are 0, the driver's, and one for each worker.
    NoSeat { line: u32 },
    /// Its first time comes after its second.
    Backwards { line: u32 },
    /// By its times it came before an event of its own seat that stands at this earlier line: of the seat's events so far one of those
    /// that began last.
    OutOfTime { line: u32, earlier: u32 },
}

// When the event of a seat began that began last, of those so far, and the line that it stands at.
#[derive(Clone, Copy, Debug)]
struct Latest {
    from: u64,
    line: u32,
}

/// The mistake of the first event that has one, and none where no event has one. It takes no memory, and time that grows with the number
/// of events alone.
pub fn mistake_of(workers: u32, events: &[Event]) -> Option<EventMistake>
    requires workers { workers ≤ MOST_WORKERS }
    // Lines are counted in 32 bits.
    requires few { length events.now < 2 ^ 32 }
    ensures { MatchOption result (are_right workers [] events.now ≡ true) (IsFirstMistake workers events.now) }
{
    let mut latest = [None; PLACES];
    for i in 0..events.len() {
        let (event, line) = (&events[i], i as u32 + 1);
        let mistake = mistake_with(workers, line, &latest, event);
        if mistake.is_some() {
            return mistake;
        }
        let seat = event.entry.seat as usize;
        latest[seat] = latest_after(latest[seat], event.span, line);
    }
    None
}

// The mistake of the event at a line, by what began last of each seat.
fn mistake_with(
    workers: u32,
    line: u32,
    latest: &[Option<Latest>],
    event: &Event,
) -> Option<EventMistake>
    requires workers { workers < length latest.now }
    ensures { result ≡ mistake_with workers line latest.now event.now }
{
    if event.entry.seat > workers {
        return Some(EventMistake::NoSeat { line });
    }
    if is_backwards(event.span) {
        return Some(EventMistake::Backwards { line });
    }
    let earlier = line_barring(latest[event.entry.seat as usize], event.span)?;
    Some(EventMistake::OutOfTime { line, earlier })
}

fn is_backwards(span: Option<Span>) -> bool
    ensures { result ≡ is_backwards span }
{
    match span {
        None => false,
        Some(span) => span.to < span.from,
    }
}

// The line of the event that began last, if by its times one with this span came before it.
fn line_barring(latest: Option<Latest>, span: Option<Span>) -> Option<u32>
    ensures { result ≡ line_barring latest span }
{
    let (latest, span) = (latest?, span?);
    if span.to < latest.from {
        Some(latest.line)
    } else {
        None
    }
}

// Which event of a seat began last, once one more of it has come, at this line.
fn latest_after(latest: Option<Latest>, span: Option<Span>, line: u32) -> Option<Latest>
    ensures { result ≡ latest_after latest span line }
{
    let Some(span) = span else {
        return latest;
    };
    match latest {
        Some(latest) if span.from <= latest.from => Some(latest),
        _ => Some(Latest {
            from: span.from,
            line,
        }),
    }
}
