ghost use Rattle.std.specs.Prelude.{◌≡◌, ◌≢◌, ℕ, ◌+◌, ◌-◌, ◌/◌, ◌<◌, ◌≤◌, ◌==◌, ◌^◌, List, All, IfOk, Err, count_by, length, min};
ghost use Rattle.std.specs.List.{position, position_or_len};
ghost use Rattle.task_base.specs.declared.entry.Entry.{Entry};
ghost use Rattle.log_model.specs.declared.version.Version.{Version};
ghost use Rattle.log_model.specs.Fits.{Fits};
ghost use Rattle.log_model.specs.LogText.{text_in, version_of};
ghost use Rattle.run_log.specs.TextLines.{IsRead, IsBadLine};

use crate::entries::entry_at;
use crate::fault::LogFault;
use crate::versions::{end_of, lines_before, split_head};
use memchr::memchr;
use std::alloc::{AllocError, Global};
use task_base::{Entry, Place, Rows};

// How many bytes the shortest line of an entry has: `0 0 idle` and its line feed.
const SHORTEST_LINE: usize = 9;

// How many bytes are looked at in one piece for line feeds. The count of a piece fits a byte, so that a step of the loop can
// take sixteen bytes.
const PIECE: usize = 224;

/// Reads the text of a log, of version 2 where its first line says so, else of version 1. The time that it takes grows
/// with the number of bytes alone. It takes memory for the entries alone, before it reads the first: for as many as there
/// are line feeds, and at most for one in every nine bytes.
///
/// The errors are bytes that are the text of no log, and want of memory. Which of the two comes is open where memory
/// runs out before the first bad line is met.
pub fn read_log(alloc: Global, bytes: &[u8]) -> Result<Rows<Entry>, LogFault>
    // Lines are counted in 32 bits.
    requires { length bytes.now < 2 ^ 32 - 1 }
    ensures text { IfOk result (λ log. text_in (version_of bytes.now) log.items ≡ bytes.now) }
    ensures fits { IfOk result (λ log. All Fits log.items) }
    ensures bad { (line : ℕ) → result ≡ Err (LogFault.Bad line) → IsBadLine bytes.now line }

    // Bytes are bad only where they are the text of no log, in either version.
    ensures no_log { (line : ℕ) → result ≡ Err (LogFault.Bad line) → (version : Version) (log : List Entry) → All Fits log → text_in version log ≢ bytes.now }
{
    let (version, lines) = split_head(bytes);
    let (entries, rest) = entries_of(alloc, lines)?;
    let count = entries.len() as Place;
    if rest != end_of(version, count).as_slice() {
        return Err(LogFault::Bad {
            line: lines_before(version) + count + 1,
        });
    }
    Ok(Rows::from_vec(entries))
}

// The entries whose lines stand in front of the bytes, each at its place, and what stands behind them.
pub(crate) fn entries_of(alloc: Global, bytes: &[u8]) -> Result<(Vec<Entry>, &[u8]), AllocError>
    requires { length bytes.now < 2 ^ 32 }
    ensures read { IfOk result (λ read. IsRead bytes.now read.0.items read.1.now) }
    ensures few { IfOk result (λ read. length read.0.items ≤ length bytes.now) }
{
    let mut entries = Vec::with_capacity(alloc, most_entries(bytes))?;
    let mut rest = bytes;
    loop {
        let (line, behind) = rest.split_at(line_end(rest));
        let Some(entry) = entry_at(entries.len() as Place, line) else {
            return Ok((entries, rest));
        };
        entries.push(entry)?;
        rest = behind;
    }
}

// For how many entries there is room in the bytes: each has a line feed, and no line is shorter than the shortest.
fn most_entries(bytes: &[u8]) -> usize
    ensures { result ≡ min (count_by (λ byte. byte == 10) bytes.now) (length bytes.now / 9) }
{
    count_feeds(bytes).min(bytes.len() / SHORTEST_LINE)
}

// How many line feeds there are.
fn count_feeds(bytes: &[u8]) -> usize
    ensures { result ≡ count_by (λ byte. byte == 10) bytes.now }
{
    let mut feeds = 0;
    let mut rest = bytes;
    while !rest.is_empty() {
        let (piece, behind) = rest.split_at(rest.len().min(PIECE));
        feeds += usize::from(feeds_in(piece));
        rest = behind;
    }
    feeds
}

// How many line feeds a piece has.
fn feeds_in(piece: &[u8]) -> u8
    requires { length piece.now ≤ 224 }
    ensures { result ≡ count_by (λ byte. byte == 10) piece.now }
{
    let mut feeds: u8 = 0;
    for byte in piece {
        if *byte == b'\n' {
            feeds += 1;
        }
    }
    feeds
}

// Where the first line ends: behind its line feed, or with the bytes.
fn line_end(bytes: &[u8]) -> usize
    ensures { result ≡ min (position_or_len (λ byte. byte == 10) bytes.now + 1) (length bytes.now) }
{
    match first_feed(bytes) {
        Some(feed) => feed + 1,
        None => bytes.len(),
    }
}

// Where the first line feed stands.
pub(crate) fn first_feed(bytes: &[u8]) -> Option<usize>
    ensures { result ≡ position (λ byte. byte == 10) bytes.now }
{
    memchr(b'\n', bytes)
}
