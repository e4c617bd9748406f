ghost use Rattle.std.specs.Prelude.{◌≡◌, option_copied};
ghost use Rattle.line_places.specs.Words.{command_of, id_of, word_at};

use line_words::{Words, number_from};

/// The word at a place of a line, counted from 1, if there is one.
pub fn word_at(line: &[u8], place: usize) -> Option<&[u8]>
    ensures { option_copied result ≡ word_at line.now place }
{
    let mut words = Words::of(line);
    let mut left = place.saturating_sub(1);
    while left > 0 {
        words.next();
        left -= 1;
    }
    words.next()
}

/// The command of a line.
pub fn command_of(line: &[u8]) -> &[u8]
    ensures { result.now ≡ command_of line.now }
{
    word_at(line, 1).unwrap_or(&[])
}

/// The number of 32 bits that a word writes, if it writes one.
pub fn id_of(word: &[u8]) -> Option<u32>
    ensures { result ≡ id_of word.now }
{
    let number = number_from(0, u64::from(u32::MAX), word).ok()?;
    Some(number as u32)
}
