ghost use Rattle.std.specs.Prelude.{◌≡◌, ◌+◌, ◌≤◌, ◌++◌, OnErr, OnOk, length};
ghost use Rattle.order_text.specs.Plain.{against_line, stuck_text};

use arrayvec::ArrayVec;
use event_text::event_line;
use explain_text::{cause_text, open_cause_text};
use order_explain::Stuck;
use order_model::Event;
use std::alloc::AllocError;
use task_base::{Place, SeatNo};

// Two lines and some words: at most 512 bytes.
type Lines = ArrayVec<u8, 512>;

/// Adds two lines: the event that a seat saw next, after the first events of an order, as many as the place says, and what stands
/// against it there. The error is out of memory; then the text is as it was.
pub fn stuck_text(
    text: &mut Vec<u8>,
    place: Place,
    event: &Event,
    stuck: &Stuck,
) -> Result<(), AllocError>
    ensures added { OnOk result (text.new.items ≡ text.old.items ++ stuck_text place event.now stuck.now) }
    ensures same { OnErr result (text.new.items ≡ text.old.items) }
{
    text.extend_from_slice(&two_lines(place, event, stuck))?;
    Ok(())
}

// The two lines.
fn two_lines(place: Place, event: &Event, stuck: &Stuck) -> Lines
    ensures { result.items ≡ stuck_text place event.now stuck.now }
{
    let mut lines = Lines::new();
    add(&mut lines, b"saw: ");
    add(&mut lines, &event_line(event));
    add_against(&mut lines, place, event.entry.seat, stuck);
    lines
}

// Adds what stands against an event of the seat.
fn add_against(lines: &mut Lines, place: Place, seat: SeatNo, stuck: &Stuck)
    requires { length lines.old.items ≤ 200 }
    ensures { lines.new.items ≡ lines.old.items ++ against_line place seat stuck.now }
{
    match stuck {
        Stuck::Waits { other } => {
            add(lines, b"  by its times this came before it: ");
            add(lines, &event_line(other));
        }
        Stuck::Barred { cause } => {
            add(lines, b"  ");
            add(lines, &cause_text(place, seat, cause));
        }
        Stuck::OpenBarred { cause } => {
            add(lines, b"  ");
            add(lines, &open_cause_text(place, seat, cause));
        }
        Stuck::Free => add(lines, b"  it may come\n"),
    }
}

// Adds the bytes, for which there is room.
fn add(lines: &mut Lines, bytes: &[u8])
    requires { length lines.old.items + length bytes.now ≤ 512 }
    ensures { lines.new.items ≡ lines.old.items ++ bytes.now }
{
    let _fits = lines.try_extend_from_slice(bytes);
}
