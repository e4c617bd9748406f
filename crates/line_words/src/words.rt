ghost use Rattle.std.specs.Prelude.{◌≡◌, ◌↔◌, [], ◌∷◌, drop, slice_get, option_copied, position, IsTrue, MatchOption, not};
ghost use Rattle.std.specs.List.{position_or_len, slice_split};
ghost use Rattle.script_model.specs.Words.{words_of, is_blank, is_mark, begins_comment};
ghost use Rattle.line_words.specs.FirstWord.{IsFirstWord};
ghost use Rattle.line_words.specs.Steps.{pieces_of};

use std::marker::Model;

/// The words of a line that are still to be read. Contracts see the list of them.
#[derive(Drop)]
pub struct Words<'a> {
    bytes: &'a [u8],
}

impl<'a> Model for Words<'a> {
    ghost use Rattle.std.specs.Prelude.{List, ℕ};
    ghost use Rattle.script_model.specs.Words.{words_of};

    ghost Value = { List (List ℕ) };

    ghost view = { λ words. words_of words.bytes.now };
}

impl<'a> Words<'a> {
    /// The words of a line: what blanks and tabs part.
    pub fn of(line: &'a [u8]) -> Words<'a>
        ensures { result ≡ words_of line.now }
    {
        Words { bytes: line }
    }

    /// The next word, if there is one.
    pub fn next(&mut self) -> Option<&'a [u8]>
        ensures word { option_copied result ≡ slice_get self.old 0 }
        ensures rest { self.new ≡ drop 1 self.old }
    {
        let (start, end) = first_word(self.bytes)?;
        let word = &self.bytes[start..end];
        self.bytes = &self.bytes[end..];
        Some(word)
    }

    /// Whether there are none.
    pub(crate) fn is_empty(&self) -> bool
        ensures { IsTrue result ↔ (self.now ≡ []) }
    {
        word_start(self.bytes).is_none()
    }

    /// The words before the first word `;`, and those behind it, if there is one.
    pub(crate) fn split_at_mark(self) -> (Words<'a>, Option<Words<'a>>)
        ensures { slice_split is_mark self.entry ≡ result.0 ∷ pieces_of result.1 }
    {
        let bytes = self.bytes;
        let mut from = 0;
        while let Some((start, end)) = first_word(&bytes[from..]) {
            let rest = &bytes[from..];
            if is_mark(&rest[start..end]) {
                let piece = &bytes[..from];
                let behind = &rest[end..];
                return (Words { bytes: piece }, Some(Words { bytes: behind }));
            }
            from += end;
        }
        (self, None)
    }
}

/// Whether a word parts steps.
pub fn is_mark(word: &[u8]) -> bool
    ensures { result ≡ is_mark word.now }
{
    word == b";".as_slice()
}

/// Where the first word of a text stands, if it has one.
fn first_word(text: &[u8]) -> Option<(usize, usize)>
    ensures { MatchOption result (words_of text.now ≡ []) (λ place. IsFirstWord text.now place.0 place.1) }
{
    let start = word_start(text)?;
    let end = start + word_len(&text[start..]);
    Some((start, end))
}

/// Where the first byte stands that is no blank.
fn word_start(text: &[u8]) -> Option<usize>
    ensures { result ≡ position (λ b. not (is_blank b)) text.now }
{
    text.iter().position(|byte| !is_blank(*byte))
}

/// How many bytes there are before the first blank.
fn word_len(text: &[u8]) -> usize
    ensures { result ≡ position_or_len is_blank text.now }
{
    blank_start(text).unwrap_or(text.len())
}

/// Where the first blank stands.
fn blank_start(text: &[u8]) -> Option<usize>
    ensures { result ≡ position is_blank text.now }
{
    text.iter().position(|byte| is_blank(*byte))
}

/// Whether a byte parts words.
pub fn is_blank(byte: u8) -> bool
    ensures { result ≡ is_blank byte }
{
    byte == b' ' || byte == b'\t'
}

/// Whether a word, as the first of its line, makes it a comment.
pub fn begins_comment(word: &[u8]) -> bool
    ensures { result ≡ begins_comment word.now }
{
    match word {
        [first, ..] => *first == b'#',
        [] => false,
    }
}
