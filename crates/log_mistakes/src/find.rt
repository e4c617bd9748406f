ghost use Rattle.std.specs.Prelude.{◌≡◌, IfOk};
ghost use Rattle.run_log.specs.TextLines.{IsBadLine};
ghost use Rattle.log_mistakes.specs.Mistakes.{entry_mistake, head_mistake, line_mistake, mistake_at, small, total_mistake, unfed, without_blanks, word_mistake};

use crate::lines::{
    begins_with_number, is_blank, is_head, is_json, is_whole_line, line_at, small, without_blanks,
};
use crate::mistake::Mistake;
use entry_lines::meant;
use log_model::Version;
use run_log::{lines_before, may_be_headed, version_of};
use std::alloc::{AllocError, Global};
use task_base::{Entry, Place};

/// The mistake of the line of this number, counted from 1, which is none of a log at its place. It takes memory for that line. The
/// error is out of memory.
pub fn mistake_at(alloc: Global, text: &[u8], number: u32) -> Result<Mistake, AllocError>
    requires { IsBadLine text.now number }
    ensures { IfOk result (λ mistake. mistake ≡ mistake_at text.now number) }
{
    let version = version_of(text);
    let place = number - 1 - lines_before(version);
    let Some(line) = line_at(text, number as usize - 1) else {
        return Ok(Mistake::NoTotal { total: place });
    };
    if may_be_headed(version, place) && is_json(text) {
        return Ok(Mistake::Json);
    }
    let is_last = line_at(text, number as usize).is_none();
    line_mistake(alloc, version, place, is_last, line)
}

fn line_mistake(
    alloc: Global,
    version: Version,
    place: Place,
    is_last: bool,
    line: &[u8],
) -> Result<Mistake, AllocError>
    ensures { IfOk result (λ mistake. mistake ≡ line_mistake version place is_last line.now) }
{
    let words = without_blanks(line);
    if !line.ends_with(b"\n") {
        unfed(alloc, version, place, line)
    } else if is_blank(line) {
        Ok(Mistake::Blank)
    } else if words.starts_with(b"#") {
        Ok(Mistake::Comment)
    } else if line.ends_with(b"\r\n") {
        Ok(Mistake::CarriageReturn)
    } else {
        let lowered = small(alloc, words)?;
        Ok(word_mistake(version, place, is_last, line, &lowered))
    }
}

/// The mistake of a line without a line feed. The error is out of memory.
fn unfed(alloc: Global, version: Version, place: Place, line: &[u8]) -> Result<Mistake, AllocError>
    ensures { IfOk result (λ mistake. mistake ≡ unfed version place line.now) }
{
    let mut fed = Vec::new(alloc);
    fed.extend_from_slice(line)?;
    fed.push(b'\n')?;
    if is_whole_line(version, place, &fed) {
        Ok(Mistake::NoFeed)
    } else {
        Ok(Mistake::CutOff)
    }
}

/// The mistake of a line, with a line feed, by what it begins with in small letters.
fn word_mistake(
    version: Version,
    place: Place,
    is_last: bool,
    line: &[u8],
    lowered: &[u8],
) -> Mistake
    ensures { result ≡ word_mistake version place is_last line.now lowered.now }
{
    if may_be_headed(version, place) && lowered.starts_with(b"taskenv") {
        head_mistake(lowered)
    } else if lowered.starts_with(b"total") {
        total_mistake(version, place, is_last)
    } else {
        entry_mistake(place, line, meant(line), meant(lowered))
    }
}

/// The mistake of a first line that begins as that of version 2 does.
fn head_mistake(lowered: &[u8]) -> Mistake
    ensures { result ≡ head_mistake lowered.now }
{
    if is_head(lowered) {
        Mistake::Head
    } else {
        Mistake::Version
    }
}

/// The mistake of a total.
fn total_mistake(version: Version, place: Place, is_last: bool) -> Mistake
    ensures { result ≡ total_mistake version place is_last }
{
    match version {
        Version::One => Mistake::NoHead,
        Version::Two if is_last => Mistake::Total { total: place },
        Version::Two => Mistake::AfterTotal,
    }
}

/// The mistake of a line by which entry it is meant to be, and by which with small letters.
fn entry_mistake(place: Place, line: &[u8], meant: Option<Entry>, lowered: Option<Entry>) -> Mistake
    ensures { result ≡ entry_mistake place line.now meant lowered }
{
    match (meant, lowered) {
        (Some(entry), _) if begins_with_number(place, line) => Mistake::Spelling { entry },
        (Some(entry), _) => Mistake::Place { entry },
        (None, Some(entry)) => Mistake::Letters { entry },
        (None, None) => Mistake::Unknown,
    }
}
