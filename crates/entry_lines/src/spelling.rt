ghost use Rattle.std.specs.Prelude.{◌≡◌, ◌∷◌, ◌<◌, ℕ, List, None, MatchOption, IfSome, length, map};
ghost use Rattle.line_text.specs.Words.{texts};
ghost use Rattle.task_base.specs.declared.entry.Entry.{Entry};
ghost use Rattle.log_model.specs.Fits.{Fits};
ghost use Rattle.log_model.specs.LogText.{number, parts_of, shown};
ghost use Rattle.entry_lines.specs.Spelling.{IsMeant, entry_behind_place, has_zero_in_front, is_blank_byte, meant_of, plain_words, without_zeros};

use crate::kinds::kind_of;
use arrayvec::ArrayVec;
use numeral_text::number_32;
use task_base::Entry;

/// The entry whose line this is but for its spelling, if there is one. Any word may stand for the place, numbers may have
/// zeros in front, and there may be other blanks (spaces, tabs, carriage returns, line feeds) between the words and around
/// them, also no line feed at the end. It takes no memory.
pub fn meant(line: &[u8]) -> Option<Entry>
    ensures same { result ≡ meant_of line.now }
    ensures meant { IfSome result (IsMeant line.now) }
    ensures none { result ≡ None → (e : Entry) → ¬ IsMeant line.now e }
{
    entry_behind_place(&plain_words(line)?)
}

// The entry whose words these are behind the place, if there is one.
#[tactic(auto, unfolding(crate::specs::Spelling::entry_behind_place))]
fn entry_behind_place(words: &[&[u8]]) -> Option<Entry>
    ensures same { result ≡ entry_behind_place (texts words.now) }
    ensures parts { IfSome result (λ e. (place : List ℕ) × (texts words.now ≡ place ∷ map shown (number e.seat ∷ parts_of e.kind))) }
    ensures fits { IfSome result Fits }
{
    let [_place, seat, words @ ..] = words else {
        return None;
    };
    let seat = number_32(seat)?;
    let kind = kind_of(words)?;
    Some(Entry { seat, kind })
}

// The plain words of a line, if there are at most eight: no line of a log has more.
fn plain_words(line: &[u8]) -> Option<ArrayVec<&[u8], 8>>
    ensures { MatchOption result (8 < length (plain_words line.now)) (λ words. texts words.items ≡ plain_words line.now) }
{
    let pieces = line
        .split(|byte| is_blank_byte(*byte))
        .filter(|piece| !piece.is_empty());
    let mut words = ArrayVec::new();
    for piece in pieces {
        if words.is_full() {
            return None;
        }
        words.push(without_zeros(piece));
    }
    Some(words)
}

/// Whether the byte is a blank: a space, a tab, a carriage return or a line feed.
pub fn is_blank_byte(byte: u8) -> bool
    ensures { result ≡ is_blank_byte byte }
{
    byte == b' ' || byte == b'\t' || byte == b'\r' || byte == b'\n'
}

/// The word without the zeros in front of a digit: `007` is `7`, and `0` and `000` are `0`.
pub fn without_zeros(word: &[u8]) -> &[u8]
    ensures { result.now ≡ without_zeros word.now }
{
    let mut rest = word;
    while has_zero_in_front(rest) {
        rest = &rest[1..];
    }
    rest
}

fn has_zero_in_front(word: &[u8]) -> bool
    ensures { result ≡ has_zero_in_front word.now }
{
    match word {
        [b'0', next, ..] => next.is_ascii_digit(),
        _ => false,
    }
}
