ghost use Rattle.std.specs.Prelude.{◌≡◌, ◌<◌, ◌^◌, length, IfOk};
ghost use Rattle.lint_text.specs.Objections.{at, by_words, none_of, objection_line, unexpected};

use crate::complaint::Complaint;
use crate::text::lint_line;
use line_places::{Expected, Language, Thing, command_of, first_place, line_length, word_at};
use std::alloc::{AllocError, Global};

/// What is wrong with a line, and at which place, counted from 1, the command's.
#[derive(Clone, Copy)]
pub struct Objection {
    pub place: usize,
    pub complaint: Complaint,
}

/// What is wrong at a place.
pub fn at(place: usize, complaint: Complaint) -> Objection
    ensures { result ≡ at place complaint }
{
    Objection { place, complaint }
}

/// That only so many are declared.
pub fn none_of(of: Thing, count: usize) -> Complaint
    ensures { result ≡ none_of of count }
{
    Complaint::Undeclared {
        of,
        count: count as u64,
    }
}

/// That a word of a line can't stand where this is expected.
pub fn unexpected(language: Language, line: &[u8], expected: Expected, reason: u8) -> Complaint
    ensures { result ≡ unexpected language line.now expected reason }
{
    Complaint::Unexpected {
        language,
        expected,
        reason,
        length: line_length(language, command_of(line)),
    }
}

/// What is wrong with a line by its words alone: the first place for which any reason holds, or rule 1 where there is none. The line
/// has at most 4,294,967,295 bytes.
pub fn by_words(language: Language, line: &[u8]) -> Objection
    requires { length line.now < 2 ^ 32 }
    ensures { result ≡ by_words language line.now }
{
    match first_place(language, None, line) {
        Some(found) => at(
            found.place,
            unexpected(language, line, found.expected, found.reason),
        ),
        None => at(1, Complaint::Breaks { reason: 1 }),
    }
}

/// The line of text that says what is wrong with a line of this number, from 1. `front` stands before it.
pub fn objection_line(
    alloc: Global,
    front: &[u8],
    number: u32,
    line: &[u8],
    objection: &Objection,
) -> Result<Vec<u8>, AllocError>
    ensures { IfOk result (λ text. text.items ≡ objection_line front.now number line.now objection.now) }
{
    lint_line(
        alloc,
        front,
        number,
        objection.place,
        &objection.complaint,
        word_at(line, objection.place),
    )
}
