ghost use Rattle.std.specs.Prelude.{◌≡◌, ◌+◌, ◌≤◌, ◌++◌, [], if◌then◌else◌, codes, decimal, flat_map, length, slice_get};
ghost use Rattle.next_entry.specs.Causes.{named_by};
ghost use Rattle.explain_text.specs.Plain.{around, at_work_after, bar_words, busy_words, cause_line, cause_words, edge_words, more_words, seat_of, told_text};

use itoa::Buffer;
use line_text::{Line, add, add_decimal};
use next_entry::{Bar, Busy, Cause, Edge, Explanation, Work};
use task_base::{Entry, Kind, Place, SeatNo};

/// How many seats that run or hold something a line names at most.
const SHOWN: usize = 4;

/// What is said of a log, in one line of at most 256 bytes; of a legal log nothing.
pub fn told_text(log: &[Entry], told: &Explanation) -> Line
    ensures { result.items ≡ told_text log.now told.now }
{
    let mut line = Line::new();
    match told {
        Explanation::Legal => {}
        Explanation::Barred { place, cause } => add_cause(
            &mut line,
            *place,
            seat_at(log, *place),
            cause,
        ),
        Explanation::Unfinished { place, seat, cause } => {
            add(&mut line, b"unfinished: ");
            add_cause(&mut line, *place, *seat, cause);
        }
        Explanation::AtWork { busy, .. } => {
            add_at_work(&mut line, b"unfinished: the script is finished", busy);
        }
    }
    line
}

/// What stands against an entry of a seat at a place, and the entry that may come there instead, if one is named: one line of at most
/// 256 bytes.
pub fn cause_text(place: Place, seat: SeatNo, cause: &Cause) -> Line
    ensures items { result.items ≡ cause_line place seat cause.now }
    ensures short { length result.items ≤ 256 }
{
    let mut line = Line::new();
    add_cause(&mut line, place, seat, cause);
    line
}

/// The seat of the entry at a place, or 0 where there is none.
pub(crate) fn seat_at(log: &[Entry], place: Place) -> SeatNo
    ensures { result ≡ seat_of (slice_get log.now place) }
{
    match log.get(place as usize) {
        Some(entry) => entry.seat,
        None => 0,
    }
}

/// The entry that a cause names.
pub(crate) fn named_by(cause: &Cause) -> Option<Kind>
    ensures { result ≡ named_by cause.now }
{
    match *cause {
        Cause::Runs { next, .. } | Cause::Holds { next, .. } => Some(next),
        Cause::Wants { next } | Cause::Best { next, .. } => Some(next),
        _ => None,
    }
}

/// Adds these words, the first seats that run or hold something, and how many more there are.
pub(crate) fn add_at_work(line: &mut Line, words: &[u8], busy: &[Busy])
    requires line { line.old.items ≡ [] }
    requires words { length words.now ≤ 34 }
    ensures { line.new.items ≡ at_work_after words.now busy.now }
{
    add(line, words);
    let shown = SHOWN.min(busy.len());
    add_seats(line, &busy[..shown]);
    add_more(line, busy.len().saturating_sub(SHOWN));
}

/// Adds how many seats are left, and the end of the line.
fn add_more(line: &mut Line, count: usize)
    requires { length line.old.items ≤ 202 }
    ensures { line.new.items ≡ line.old.items ++ more_words count }
{
    if count > 0 {
        add(line, b"; and ");
        add_decimal(line, count as u64);
        add(line, b" more\n");
    } else {
        add(line, b"\n");
    }
}

/// Adds at most four seats, and what each runs or holds.
fn add_seats(line: &mut Line, busy: &[Busy])
    requires line { length line.old.items ≤ 34 }
    requires few { length busy.now ≤ 4 }
    ensures items { line.new.items ≡ line.old.items ++ flat_map busy_words busy.now }
    ensures short { length line.new.items ≤ 202 }
{
    for one in busy {
        add_busy(line, one);
    }
}

/// Adds a seat, and what it runs or holds.
fn add_busy(line: &mut Line, busy: &Busy)
    requires { length line.old.items ≤ 160 }
    ensures items { line.new.items ≡ line.old.items ++ busy_words busy.now }
    ensures short { length line.new.items ≤ length line.old.items + 42 }
{
    add(line, b"; seat ");
    add_short(line, busy.seat);
    match busy.work {
        Work::Task { task } => {
            add(line, b" runs task ");
            add_short(line, task);
        }
        Work::Item { job } => {
            add(line, b" is inside job ");
            add_short(line, job);
        }
    }
}

/// Adds a number of at most ten digits.
fn add_short(line: &mut Line, number: u32)
    requires { length line.old.items ≤ 246 }
    ensures items { line.new.items ≡ line.old.items ++ decimal number }
    ensures short { length line.new.items ≤ length line.old.items + 10 }
{
    add(line, Buffer::new().format(number).as_bytes());
}

/// Adds the cause, and the entry that it names.
fn add_cause(line: &mut Line, place: Place, seat: SeatNo, cause: &Cause)
    requires { length line.old.items ≤ 12 }
    ensures items { line.new.items ≡ line.old.items ++ cause_line place seat cause.now }
    ensures short { length line.new.items ≤ 256 }
{
    add_words(line, seat, cause);
    match named_by(cause) {
        Some(kind) => add(line, &entry_lines::line(place, &Entry { seat, kind })),
        None => add(line, b"\n"),
    }
}

/// Adds what stands against an entry of the seat.
fn add_words(line: &mut Line, seat: SeatNo, cause: &Cause)
    requires { length line.old.items ≤ 12 }
    ensures items { line.new.items ≡ line.old.items ++ cause_words seat cause.now }
    ensures short { length line.new.items ≤ 95 }
{
    match *cause {
        Cause::NoSeat => add_one(line, b"there is no seat ", seat, b""),
        Cause::OnlyDriver => add_one(
            line,
            b"the driver alone makes such an entry, and not seat ",
            seat,
            b"",
        ),
        Cause::RunsNothing => add_one(
            line,
            b"no task runs, and no item is held, on seat ",
            seat,
            b"",
        ),
        Cause::Runs { task, .. } => add_two(
            line,
            b"seat ",
            seat,
            b" runs task ",
            task,
            b", and may go on by: ",
        ),
        Cause::Holds { job, .. } => add_two(
            line,
            b"seat ",
            seat,
            b" is inside job ",
            job,
            b", and may go on by: ",
        ),
        Cause::Wants { .. } => add(line, b"the script wants of the driver: "),
        Cause::Best { edge, .. } => add_one(
            line,
            b"the best source of seat ",
            seat,
            edge_words(edge),
        ),
        Cause::NoSource { bar } => add_one(
            line,
            b"nothing may be taken by seat ",
            seat,
            bar_words(bar),
        ),
        Cause::Finished => add_one(
            line,
            b"the script is finished, and nothing is left for seat ",
            seat,
            b"",
        ),
        Cause::NotIdle { running, ready } => {
            add_one(
                line,
                b"the pool is not idle; at work: ",
                running,
                ready_words(ready),
            );
        }
        Cause::Inside { job, seats } => add_two(
            line,
            b"the driver waits for job ",
            job,
            b"; seats inside: ",
            seats,
            b"",
        ),
        Cause::Blocked { count } => add_one(
            line,
            b"the driver waits until shutdown is done; what blocks it: ",
            count,
            b"",
        ),
    }
}

/// Adds words with a number between them: at most 63 bytes of words.
fn add_one(line: &mut Line, words: &[u8], number: u32, rest: &[u8])
    requires line { length line.old.items ≤ 12 }
    requires words { length words.now + length rest.now ≤ 63 }
    ensures items { line.new.items ≡ line.old.items ++ around words.now number rest.now }
    ensures short { length line.new.items ≤ 95 }
{
    add(line, words);
    add_decimal(line, u64::from(number));
    add(line, rest);
}

/// Adds words with two numbers between them: at most 43 bytes of words.
fn add_two(line: &mut Line, words: &[u8], first: u32, between: &[u8], second: u32, rest: &[u8])
    requires line { length line.old.items ≤ 12 }
    requires words { length words.now + length between.now + length rest.now ≤ 43 }
    ensures items { line.new.items ≡ line.old.items ++ around words.now first (around between.now second rest.now) }
    ensures short { length line.new.items ≤ 95 }
{
    add(line, words);
    add_decimal(line, u64::from(first));
    add(line, between);
    add_decimal(line, u64::from(second));
    add(line, rest);
}

/// What is said where something may be taken.
fn ready_words(ready: bool) -> &'static [u8]
    ensures words { result.now ≡ (if ready then codes "; something may be taken" else []) }
    ensures short { length result.now ≤ 24 }
{
    if ready {
        b"; something may be taken"
    } else {
        b""
    }
}

/// What the best source has over another.
fn edge_words(edge: Edge) -> &'static [u8]
    ensures words { result.now ≡ edge_words edge }
    ensures short { length result.now ≤ 39 }
{
    match edge {
        Edge::Same => b" is taken by: ",
        Edge::Priority => b" (by priority) is taken by: ",
        Edge::Inside => b" (by fewer inside) is taken by: ",
        Edge::Key => b" (by key) is taken by: ",
        Edge::Barred => b" (the other is barred) is taken by: ",
        Edge::Unready => b" (the other is not ready) is taken by: ",
    }
}

/// What is against the take of the source that an entry takes.
fn bar_words(bar: Bar) -> &'static [u8]
    ensures words { result.now ≡ bar_words bar }
    ensures short { length result.now ≤ 32 }
{
    match bar {
        Bar::Unaccepted => b"; this was not accepted",
        Bar::Taken => b"; this was taken before",
        Bar::Cancelled => b"; this job is cancelled",
        Bar::Forbidden => b"; shutdown forbids this",
        Bar::Unripe => b"; this is not ripe yet",
        Bar::Busy => b"; this sequence runs",
        Bar::Claimed => b"; all items of this are claimed",
        Bar::Full => b"; this job is full",
        Bar::OtherSeat => b"; this is another seat's runner",
        Bar::Held => b"; the policy holds this back",
        Bar::Limit => b"; the limits leave no room",
    }
}
