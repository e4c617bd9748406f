ghost use Rattle.std.specs.Prelude.{◌≡◌, ◌≢◌, ◌<◌, ◌-◌, ◌^◌, ◌++◌, ◌==◌, ◌∷◌, ℕ, List, All, IfOk, Err, length};
ghost use Rattle.std.specs.List.{position};
ghost use Rattle.run_log.specs.TextLines.{text_lines};
ghost use Rattle.order_model.specs.declared.event.Event.{Event};
ghost use Rattle.event_text.specs.EventText.{EventFits, events_text};
ghost use Rattle.event_text.specs.Reading.{IsBadLine};
ghost use Rattle.event_text.specs.declared.fault.EventFault.TheVariants.{Bad};

use crate::events::event_at;
use crate::fault::EventFault;
use memchr::memchr;
use order_model::Event;
use std::alloc::Global;

/// Reads the text of events: a line for each, in their order. Of one seat the first comes first; those of several seats may stand in
/// any order. The time that it takes grows with the number of bytes alone.
///
/// The errors are bytes that are the text of no events, and out of memory. Which of the two comes is open where memory runs out
/// before the first bad line is met.
pub fn read_events(alloc: Global, bytes: &[u8]) -> Result<Vec<Event>, EventFault>
    // Lines are counted in 32 bits.
    requires { length bytes.now < 2 ^ 32 - 1 }
    ensures text { IfOk result (λ events. events_text events.items ≡ bytes.now) }
    ensures fits { IfOk result (λ events. All EventFits events.items) }
    // No other events have this text.
    ensures only { IfOk result (λ read. (other : List Event) → All EventFits other → events_text other ≡ bytes.now → other ≡ read.items) }
    ensures bad { (line : ℕ) → result ≡ Err (Bad line) → IsBadLine bytes.now line }

    // Bytes are bad only where they are the text of no events.
    ensures no_text { (line : ℕ) → result ≡ Err (Bad line) → (other : List Event) → All EventFits other → events_text other ≢ bytes.now }
{
    let mut events = Vec::new(alloc);
    let mut rest = bytes;
    while !rest.is_empty() {
        let (line, after) = first_line(rest);
        let Some(event) = event_at(line) else {
            return Err(EventFault::Bad {
                line: events.len() as u32 + 1,
            });
        };
        events.push(event)?;
        rest = after;
    }
    Ok(events)
}

// The first line, with its line feed if it has one, and what comes after it.
fn first_line(bytes: &[u8]) -> (&[u8], &[u8])
    requires { 0 < length bytes.now }
    ensures whole { bytes.now ≡ result.0.now ++ result.1.now }
    ensures first { text_lines bytes.now ≡ result.0.now ∷ text_lines result.1.now }
{
    let end = match first_feed(bytes) {
        Some(feed) => feed + 1,
        None => bytes.len(),
    };
    bytes.split_at(end)
}

// Where the first line feed stands.
fn first_feed(bytes: &[u8]) -> Option<usize>
    ensures { result ≡ position (λ byte. byte == 10) bytes.now }
{
    memchr(b'\n', bytes)
}
