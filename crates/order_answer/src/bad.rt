ghost use Rattle.std.specs.Prelude.{◌≡◌, ◌≤◌, ◌++◌, decimal, length};
ghost use Rattle.order_answer.specs.Bad.{at_line, bad_note, bad_of};

use event_text::EventMistake;
use line_text::{Line, add, add_decimal};

/// Why a text is that of no events which seats may have seen. Lines count from 1.
#[derive(Clone, Copy, Debug, PartialEq, Eq)]
pub enum BadEvents {
    /// The line is that of no event.
    NoEvent { line: u32 },
    /// There is no such seat.
    NoSeat { line: u32 },
    /// Its first time comes after its second.
    Backwards { line: u32 },
    /// By its times it came before an event of its own seat, which stands on this earlier line.
    OutOfTime { line: u32, earlier: u32 },
}

impl BadEvents {
    /// What is told of it, without a line feed. It takes no memory.
    pub fn note(&self) -> Line
        ensures note { result.items ≡ bad_note self.now }
        ensures short { length result.items ≤ 110 }
    {
        match *self {
            BadEvents::NoEvent { line } => at_line(line),
            BadEvents::NoSeat { line } => {
                let mut note = at_line(line);
                add(&mut note, b": no such seat");
                note
            }
            BadEvents::Backwards { line } => {
                let mut note = at_line(line);
                add(&mut note, b": FROM is after TO");
                note
            }
            BadEvents::OutOfTime { line, earlier } => {
                let mut note = at_line(line);
                add(&mut note, b": its times are before those of line ");
                add_decimal(&mut note, u64::from(earlier));
                add(&mut note, b" of its seat");
                note
            }
        }
    }
}

/// The line that is bad.
fn at_line(line: u32) -> Line
    ensures items { result.items ≡ at_line line }
    ensures short { length result.items ≤ 37 }
{
    let mut note = Line::new();
    add(&mut note, b"bad events: line ");
    add_decimal(&mut note, u64::from(line));
    note
}

/// Why events of which one has this mistake are bad.
pub(crate) fn bad_of(mistake: EventMistake) -> BadEvents
    ensures { result ≡ bad_of mistake }
{
    match mistake {
        EventMistake::NoSeat { line } => BadEvents::NoSeat { line },
        EventMistake::Backwards { line } => BadEvents::Backwards { line },
        EventMistake::OutOfTime { line, earlier } => BadEvents::OutOfTime { line, earlier },
    }
}
