//! What is wrong with a line whose words alone are wrong.
ghost use Rattle.std.specs.Prelude.{◌≡◌, ◌<◌, ◌^◌, length};
ghost use Rattle.script_lint.specs.Words.{above_foreground, ascii_objection, foreground_of, word_objection};

use line_places::{Expected, Language, command_of, first_beyond_ascii, first_place, line_length};
use line_words::Words;
use lint_text::{Complaint, Objection, at, unexpected};

/// What is wrong with a line of a script, by the least reason of its words: one of 1 to 5.
pub(crate) fn word_objection(line: &[u8], reason: u8) -> Objection
    requires { length line.now < 2 ^ 32 }
    ensures { result ≡ word_objection line.now reason }
{
    if reason == 1 {
        return ascii_objection(line);
    }
    match first_place(Language::Script, Some(reason), line) {
        Some(found) => at(
            found.place,
            unexpected(Language::Script, line, found.expected, reason),
        ),
        None => above_foreground(line, reason),
    }
}

/// That a word has a byte above 127.
fn ascii_objection(line: &[u8]) -> Objection
    requires { length line.now < 2 ^ 32 }
    ensures { result ≡ ascii_objection line.now }
{
    at(first_beyond_ascii(line).unwrap_or(1), Complaint::NotAscii)
}

/// That the limit of best-effort work is above that of all foreground work, before it on the line.
fn above_foreground(line: &[u8], reason: u8) -> Objection
    ensures { result ≡ above_foreground line.now reason }
{
    let high = u64::from(foreground_of(line));
    at(
        3,
        unexpected(
            Language::Script,
            line,
            Expected::Number { low: 1, high },
            reason,
        ),
    )
}

/// The limit of all foreground work that a line says, or 64 where it says none.
fn foreground_of(line: &[u8]) -> u32
    ensures { result ≡ foreground_of line.now }
{
    let mut words = Words::of(line);
    words.next();
    words.count(1, 64).unwrap_or(64)
}
