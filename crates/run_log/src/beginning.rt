ghost use Rattle.std.specs.Prelude.{◌≡◌, ◌≢◌, ◌<◌, ◌-◌, ◌^◌, ℕ, List, Option, All, IfOk, Err, length};
ghost use Rattle.task_base.specs.declared.entry.Entry.{Entry};
ghost use Rattle.log_model.specs.Fits.{Fits};
ghost use Rattle.run_log.specs.Beginnings.{IsBeginningOf, is_cut_off, is_end, may_be_headed, place_of};
ghost use Rattle.run_log.specs.TextLines.{IsBadLine};

use crate::fault::LogFault;
use crate::read::{entries_of, first_feed};
use crate::versions::{end_of, head_of, lines_before, split_head};
use line_text::{Line, add_decimal};
use log_model::Version;
use std::alloc::Global;
use task_base::{Entry, Place, Rows};

/// What the beginning of a log's text says.
#[derive(Drop)]
pub struct Beginning {
    /// The entries of its whole lines.
    pub log: Rows<Entry>,
    /// The line, counted from 1, that is cut off and was left out, if there is one.
    pub cut: Option<u32>,
}

/// Reads the beginning of a log's text, as of a run that isn't over or was stopped: as `read_log`, but the total may be
/// missing, and a last line that is cut off is left out. It takes as much time and memory.
///
/// The errors are bytes that begin the text of no log, and out of memory. Which of the two comes is open where memory runs out
/// before the first bad line is met.
pub fn read_beginning(alloc: Global, bytes: &[u8]) -> Result<Beginning, LogFault>
    // Lines are counted in 32 bits.
    requires { length bytes.now < 2 ^ 32 - 1 }
    ensures text { IfOk result (λ begun. IsBeginningOf bytes.now begun.log.items begun.cut) }
    ensures fits { IfOk result (λ begun. All Fits begun.log.items) }
    ensures bad { (line : ℕ) → result ≡ Err (LogFault.Bad line) → IsBadLine bytes.now line }

    // Bytes are bad only where they begin the text of no log.
    ensures no_log { (line : ℕ) → result ≡ Err (LogFault.Bad line) → (log : List Entry) (cut : Option ℕ) → All Fits log → ¬ IsBeginningOf bytes.now log cut }
{
    let (version, lines) = split_head(bytes);
    let (entries, rest) = entries_of(alloc, lines)?;
    let count = entries.len() as Place;
    let line = lines_before(version) + count + 1;
    if is_cut_off(version, count, rest) {
        return Ok(Beginning {
            log: Rows::from_vec(entries),
            cut: Some(line),
        });
    }
    if is_end(version, count, rest) {
        return Ok(Beginning {
            log: Rows::from_vec(entries),
            cut: None,
        });
    }
    Err(LogFault::Bad { line })
}

// Whether nothing more stands there, or the end of such a text behind the lines of so many entries.
fn is_end(version: Version, entries: Place, rest: &[u8]) -> bool
    ensures { result ≡ is_end version entries rest.now }
{
    rest.is_empty() || rest == end_of(version, entries).as_slice()
}

// Whether this, which stands behind the lines of so many entries, is the beginning of one more line, as far as its place, or of the
// total, or of the head, and has no line feed.
fn is_cut_off(version: Version, entries: Place, rest: &[u8]) -> bool
    ensures { result ≡ is_cut_off version entries rest.now }
{
    if rest.is_empty() || first_feed(rest).is_some() {
        return false;
    }
    let place = place_of(entries);
    rest.starts_with(&place)
        || place.starts_with(rest)
        || end_of(version, entries).starts_with(rest)
        || may_be_headed(version, entries) && head_of(Version::Two).starts_with(rest)
}

/// Whether the first line of version 2 may still come behind the lines of so many entries, in a text that is read by this version.
pub fn may_be_headed(version: Version, entries: Place) -> bool
    ensures { result ≡ may_be_headed version entries }
{
    version == Version::One && entries == 0
}

// What each line begins with that stands behind the lines of so many entries.
fn place_of(entries: Place) -> Line
    ensures { result.items ≡ place_of entries }
{
    let mut line = Line::new();
    add_decimal(&mut line, u64::from(entries));
    line.push(b' ');
    line
}
