//! A value whose script posts a task and shuts down, and the visits in which seats enter its history.
ghost use Rattle.std.specs.Prelude.{◌≡◌, ◌==◌, ◌<◌, ◌^◌, [], IfNone, IfSome, length, slice_get, take};
ghost use Rattle.task_base.specs.Entries.{starts_shutdown};
ghost use Rattle.worked_parts.specs.Samples.{steps_script, steps_log};
ghost use Rattle.turn_table.specs.Seats.{EntersOne, EntersShutdown};

use std::alloc::Global;
use std::sync::Wait;
use task_base::{Entry, Kind, Rows, SeatNo};
use turn_table::{Chronicle, Seat, Turnstile};

/// The entries so far, which are the first of the whole history.
#[derive(Drop)]
pub struct Steps {
    pub entries: Rows<Entry>,
    ghost begun: { entries.items ≡ take (length entries.items) steps_log },
}

impl Chronicle for Steps {
    ghost history = { λ s. s.entries.items };

    ghost basis = { λ _. steps_script };
}

impl Steps {
    pub fn new(alloc: Global) -> Steps
        ensures { result.entries.items ≡ [] }
    {
        Steps {
            entries: Rows::new(alloc),
        }
    }

    // Adds the next entry, where it is one of this seat, and says whether it is a shutdown.
    fn add(&mut self, seat: SeatNo) -> Option<bool>
        ensures added { IfSome result (λ _. EntersOne steps_script seat self.old.entries.items self.new.entries.items) }
        ensures kind { IfSome result (λ shuts. EntersShutdown shuts self.old.entries.items self.new.entries.items) }
        ensures room { IfSome result (λ _. length self.new.entries.items < 2 ^ 32) }
        ensures same { IfNone result (self.new.entries.items ≡ self.old.entries.items) }
    {
        let place = self.entries.len();
        let entry = entry_at(place)?;
        if entry.seat != seat {
            return None;
        }
        match self.entries.push(entry) {
            Ok(()) => Some(place == 3),
            Err(_) => None,
        }
    }
}

// The entry at a place of the whole history.
fn entry_at(place: usize) -> Option<Entry>
    ensures entry { result ≡ slice_get steps_log place }
    ensures within { IfSome result (λ _. place < 4) }
    ensures shuts { IfSome result (λ entry. starts_shutdown entry.kind ≡ (place == 3)) }
{
    let (seat, kind) = match place {
        0 => (
            0,
            Kind::Post {
                task: 0,
                runner: 0,
                delay: 0,
                ok: true,
            },
        ),
        1 => (
            1,
            Kind::Take {
                task: 0,
                runner: 0,
                found: 0,
            },
        ),
        2 => (1, Kind::End { task: 0, left: 5 }),
        3 => (0, Kind::Shutdown),
        _ => return None,
    };
    Some(Entry { seat, kind })
}

/// A seat takes the turn so many times. It enters the next entry where that is its own, and else gives the turn back.
pub fn visits<R: Wait>(
    rt: &R,
    turnstile: &Turnstile<Steps>,
    mut seat: Seat<Steps>,
    count: u32,
) -> Seat<Steps>
    requires of { seat.of ≡ turnstile.now }
    ensures of { result.of ≡ turnstile.now }
    ensures number { result.number ≡ seat.number }
    ensures made { result.made ≡ seat.made }
{
    for _ in 0..count {
        seat = visit(rt, turnstile, seat);
    }
    seat
}

fn visit<R: Wait>(rt: &R, turnstile: &Turnstile<Steps>, seat: Seat<Steps>) -> Seat<Steps>
    requires of { seat.of ≡ turnstile.now }
    ensures of { result.of ≡ turnstile.now }
    ensures number { result.number ≡ seat.number }
    ensures made { result.made ≡ seat.made }
{
    let number = seat.number();
    let (mut steps, holding) = turnstile.turn(rt, seat);
    match steps.add(number) {
        None => turnstile.back(steps, holding),
        Some(false) => turnstile.enter(steps, holding),
        Some(true) => turnstile.enter_shutdown(steps, holding),
    }
}
