ghost use Rattle.std.specs.Prelude.{◌≡◌, IfOk, option_map, slice_get};
ghost use Rattle.run_log.specs.TextLines.{text_lines};
ghost use Rattle.log_mistakes.specs.Mistakes.{begins_blank, begins_with_number, is_blank, is_head, is_json, is_line_of, is_whole_line, small, without_blanks};

use entry_lines::{is_blank_byte, line, meant, without_zeros};
use line_text::{Line, add_decimal};
use log_model::Version;
use run_log::{end_of, head_of, may_be_headed};
use std::alloc::{AllocError, Global};
use task_base::{Entry, Place};

/// The line of a text, counted from 0.
pub(crate) fn line_at(text: &[u8], number: usize) -> Option<&[u8]>
    ensures { option_map (λ line. line.now) result ≡ slice_get (text_lines text.now) number }
{
    text.split_inclusive(|byte| *byte == b'\n').nth(number)
}

/// What stands after the blanks that a text begins with.
pub(crate) fn without_blanks(text: &[u8]) -> &[u8]
    ensures { result.now ≡ without_blanks text.now }
{
    let mut rest = text;
    while begins_blank(rest) {
        rest = &rest[1..];
    }
    rest
}

fn begins_blank(text: &[u8]) -> bool
    ensures { result ≡ begins_blank text.now }
{
    match text {
        [byte, ..] => is_blank_byte(*byte),
        [] => false,
    }
}

pub(crate) fn is_blank(text: &[u8]) -> bool
    ensures { result ≡ is_blank text.now }
{
    without_blanks(text).is_empty()
}

/// Whether the text begins as JSON does.
pub(crate) fn is_json(text: &[u8]) -> bool
    ensures { result ≡ is_json text.now }
{
    let text = without_blanks(text);
    text.starts_with(b"[") || text.starts_with(b"{")
}

/// A text with small letters. The error is out of memory.
pub(crate) fn small(alloc: Global, text: &[u8]) -> Result<Vec<u8>, AllocError>
    ensures { IfOk result (λ lowered. lowered.items ≡ small text.now) }
{
    let mut lowered = Vec::new(alloc);
    lowered.extend_from_slice(text)?;
    lowered.make_ascii_lowercase();
    Ok(lowered)
}

/// Whether a line without blanks before it, in small letters, is the first line of version 2, but for blanks at its end.
pub(crate) fn is_head(line: &[u8]) -> bool
    ensures { result ≡ is_head line.now }
{
    match line.strip_prefix(b"taskenv log 2") {
        Some(rest) => is_blank(rest),
        None => false,
    }
}

/// Whether it is a line that may come behind the lines of so many entries.
pub(crate) fn is_whole_line(version: Version, place: Place, line: &[u8]) -> bool
    ensures { result ≡ is_whole_line version place line.now }
{
    is_line_of(place, line, meant(line))
        || line == end_of(version, place).as_slice()
        || may_be_headed(version, place) && line == head_of(Version::Two)
}

fn is_line_of(place: Place, text: &[u8], entry: Option<Entry>) -> bool
    ensures { result ≡ is_line_of place text.now entry }
{
    match entry {
        Some(entry) => text == line(place, &entry).as_slice(),
        None => false,
    }
}

/// Whether the first word of a line is this number, also with zeros in front.
pub(crate) fn begins_with_number(number: Place, line: &[u8]) -> bool
    ensures { result ≡ begins_with_number number line.now }
{
    let mut digits = Line::new();
    add_decimal(&mut digits, u64::from(number));
    match without_zeros(without_blanks(line)).strip_prefix(digits.as_slice()) {
        Some(rest) => begins_blank(rest),
        None => false,
    }
}
