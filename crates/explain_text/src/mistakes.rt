ghost use Rattle.std.specs.Prelude.{◌≡◌, ◌≤◌, ◌++◌, IfOk, OnOk, length};
ghost use Rattle.explain_text.specs.Mistakes.{due_key, line_due, mistake_json, mistake_key, mistake_text, words_after, words_before};

use crate::json::{add_entry, add_number};
use line_text::{Line, add, add_decimal};
use log_mistakes::Mistake;
use log_model::Version;
use run_log::head_of;
use std::alloc::{AllocError, Global};
use task_base::Place;

/// What is said of a mistake in the line of this number, counted from 1, at this place: in one line of at most 256 bytes.
pub fn mistake_text(line: u32, place: Place, mistake: &Mistake) -> Line
    ensures { result.items ≡ mistake_text line place mistake.now }
{
    let mut text = Line::new();
    add(&mut text, words_before(mistake));
    add_decimal(&mut text, u64::from(line));
    add(&mut text, words_after(mistake));
    add_due(&mut text, place, mistake);
    text
}

/// The words before the number of the line.
fn words_before(mistake: &Mistake) -> &'static [u8]
    ensures words { result.now ≡ words_before mistake.now }
    ensures short { length result.now ≤ 44 }
{
    match *mistake {
        Mistake::Unknown => b"no log has at its place such a line as line ",
        Mistake::NoTotal { .. } => b"the total is missing: line ",
        Mistake::Total { .. } => b"the total is wrong: line ",
        Mistake::Place { .. } => b"the place is wrong: line ",
        Mistake::Letters { .. } => b"letters are of the wrong case: line ",
        _ => b"line ",
    }
}

/// The words after it.
fn words_after(mistake: &Mistake) -> &'static [u8]
    ensures words { result.now ≡ words_after mistake.now }
    ensures short { length result.now ≤ 61 }
{
    match *mistake {
        Mistake::Unknown => b"",
        Mistake::Json => b" begins as JSON; a log is read as text, a line for each entry",
        Mistake::NoFeed => b" is whole, but has no line feed at its end",
        Mistake::CutOff => b" is cut off: it is no whole line, and has no line feed",
        Mistake::Blank => b" is blank; no line of a log is",
        Mistake::Comment => b" is a comment; a log has none",
        Mistake::CarriageReturn => b" ends in CR LF; the lines of a log end in LF alone",
        Mistake::Version => b" names no version that is read here; it should be: ",
        Mistake::NoHead => b" is a total, so the first line should be: ",
        Mistake::AfterTotal => b" is a total, and lines stand after it",
        _ => b" should be: ",
    }
}

/// Adds the line that should stand there, or else the end of this line.
fn add_due(text: &mut Line, place: Place, mistake: &Mistake)
    requires { length text.old.items ≤ 95 }
    ensures { text.new.items ≡ text.old.items ++ line_due place mistake.now }
{
    match *mistake {
        Mistake::NoTotal { total } | Mistake::Total { total } => {
            add(text, b"total ");
            add_decimal(text, u64::from(total));
            add(text, b"\n");
        }
        Mistake::Head | Mistake::Version | Mistake::NoHead => add(text, head_of(Version::Two)),
        Mistake::Place { entry } | Mistake::Spelling { entry } | Mistake::Letters { entry } => {
            add(text, &entry_lines::line(place, &entry));
        }
        _ => add(text, b"\n"),
    }
}

/// The same as one compact JSON object and a line feed. The error is out of memory.
pub fn mistake_json(
    alloc: Global,
    line: u32,
    place: Place,
    mistake: &Mistake,
) -> Result<Vec<u8>, AllocError>
    ensures { IfOk result (λ text. text.items ≡ mistake_json line place mistake.now) }
{
    let mut text = Vec::new(alloc);
    add_number(&mut text, b"{\"line\":", line)?;
    text.extend_from_slice(b",\"cause\":\"no_line\"")?;
    text.extend_from_slice(mistake_key(mistake))?;
    add_due_key(alloc, &mut text, place, mistake)?;
    text.extend_from_slice(b"}\n")?;
    Ok(text)
}

/// The mistake as a key.
fn mistake_key(mistake: &Mistake) -> &'static [u8]
    ensures { result.now ≡ mistake_key mistake.now }
{
    match *mistake {
        Mistake::NoTotal { .. } => b",\"mistake\":\"no_total\"",
        Mistake::Json => b",\"mistake\":\"json\"",
        Mistake::NoFeed => b",\"mistake\":\"no_feed\"",
        Mistake::CutOff => b",\"mistake\":\"cut_off\"",
        Mistake::Blank => b",\"mistake\":\"blank\"",
        Mistake::Comment => b",\"mistake\":\"comment\"",
        Mistake::CarriageReturn => b",\"mistake\":\"carriage_return\"",
        Mistake::Head => b",\"mistake\":\"head\"",
        Mistake::Version => b",\"mistake\":\"version\"",
        Mistake::NoHead => b",\"mistake\":\"no_head\"",
        Mistake::AfterTotal => b",\"mistake\":\"after_total\"",
        Mistake::Total { .. } => b",\"mistake\":\"total\"",
        Mistake::Place { .. } => b",\"mistake\":\"place\"",
        Mistake::Spelling { .. } => b",\"mistake\":\"spelling\"",
        Mistake::Letters { .. } => b",\"mistake\":\"letters\"",
        Mistake::Unknown => b"",
    }
}

/// Adds what should stand there, as a key. The error is out of memory.
fn add_due_key(
    alloc: Global,
    text: &mut Vec<u8>,
    place: Place,
    mistake: &Mistake,
) -> Result<(), AllocError>
    ensures { OnOk result (text.new.items ≡ text.old.items ++ due_key place mistake.now) }
{
    match *mistake {
        Mistake::NoTotal { total } | Mistake::Total { total } => {
            add_number(text, b",\"total\":", total)
        }
        Mistake::Place { entry } | Mistake::Spelling { entry } | Mistake::Letters { entry } => {
            add_entry(alloc, text, place, &entry)
        }
        _ => Ok(()),
    }
}
