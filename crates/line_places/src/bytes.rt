//! The lines of a text, cut off one after the other.
ghost use Rattle.std.specs.Prelude.{◌≡◌, ◌+◌, ◌-◌, ◌≤◌, ◌<◌, ◌∷◌, drop, length, slice_get, IfSome, option_copied, position};
ghost use Rattle.std.specs.List.{slice_split};
ghost use Rattle.script_model.specs.Words.{lines_of};
ghost use Rattle.line_places.specs.Bytes.{behind, first_of, front_of, is_feed, line_at, lines_behind};

use script_lines::without_return;
use std::marker::Model;

/// The lines of a text that are still to be read, each without one carriage return at its end. Contracts see the list of them.
#[derive(Drop)]
pub struct Lines<'a> {
    rest: Option<&'a [u8]>,
}

impl<'a> Model for Lines<'a> {
    ghost use Rattle.std.specs.Prelude.{List, ℕ, map, option_copied};
    ghost use Rattle.std.specs.Str.Lines.{strip_carriage_return};
    ghost use Rattle.line_places.specs.Bytes.{lines_behind};

    ghost Value = { List (List ℕ) };

    ghost view = { λ lines. map strip_carriage_return (lines_behind (option_copied lines.rest)) };
}

impl<'a> Lines<'a> {
    /// The lines of a text.
    pub fn of(text: &'a [u8]) -> Lines<'a>
        ensures lines { result ≡ lines_of text.now }
        ensures few { length result ≤ length text.now + 1 }
    {
        Lines { rest: Some(text) }
    }

    /// The next line, if there is one.
    pub fn next(&mut self) -> Option<&'a [u8]>
        ensures line { option_copied result ≡ slice_get self.old 0 }
        ensures rest { self.new ≡ drop 1 self.old }
    {
        let (line, behind) = cut_line(self.rest?);
        self.rest = behind;
        Some(without_return(line))
    }
}

/// The first line of a text, and what is behind its line feed, if it has one.
fn cut_line(text: &[u8]) -> (&[u8], Option<&[u8]>)
    ensures line { result.0.now ≡ first_of text.now (position is_feed text.now) }
    ensures within { length result.0.now ≤ length text.now }
    ensures behind { option_copied result.1 ≡ behind text.now (position is_feed text.now) }
    ensures shorter { IfSome (option_copied result.1) (λ rest. length rest ≤ length text.now) }
    ensures lines { slice_split is_feed text.now ≡ result.0.now ∷ lines_behind (option_copied result.1) }
{
    match feed_at(text) {
        Some(end) => (&text[..end], Some(&text[end + 1..])),
        None => (text, None),
    }
}

/// Where the first line feed stands.
fn feed_at(text: &[u8]) -> Option<usize>
    ensures { result ≡ position is_feed text.now }
{
    text.iter().position(|byte| *byte == b'\n')
}

/// The bytes before the line of this number, from 1, and that line.
pub fn cut_at(bytes: &[u8], number: u32) -> (&[u8], &[u8])
    ensures front { result.0.now ≡ front_of bytes.now (number - 1) }
    ensures line { result.1.now ≡ line_at bytes.now (number - 1) }
    ensures front_within { length result.0.now ≤ length bytes.now }
    ensures line_within { length result.1.now ≤ length bytes.now }
{
    let mut rest = Some(bytes);
    let mut left = number.saturating_sub(1);
    while let Some(text) = rest {
        let (line, behind) = cut_line(text);
        if left == 0 {
            let front = bytes.len() - text.len();
            return (&bytes[..front], without_return(line));
        }
        left -= 1;
        rest = behind;
    }
    (bytes, &[])
}
