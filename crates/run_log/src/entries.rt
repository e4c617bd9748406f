ghost use Rattle.std.specs.Prelude.{◌≡◌, ◌<◌, None, MatchOption, IfSome, length, map};
ghost use Rattle.line_text.specs.Words.{texts};
ghost use Rattle.task_base.specs.declared.entry.Entry.{Entry};
ghost use Rattle.log_model.specs.Fits.{Fits};
ghost use Rattle.log_model.specs.LogText.{IsLogLine, entry_parts, shown};
ghost use Rattle.run_log.specs.Entries.{entry_of, spaced_words};

use arrayvec::ArrayVec;
use entry_lines::kind_of;
use numeral_text::number_32;
use task_base::{Entry, Place};

/// The entry whose line these bytes are at this place, if there is one.
pub(crate) fn entry_at(place: Place, bytes: &[u8]) -> Option<Entry>
    ensures found { IfSome result (λ e. IsLogLine place bytes.now e) }
    ensures none { result ≡ None → (e : Entry) → ¬ IsLogLine place bytes.now e }
{
    let [front @ .., b'\n'] = bytes else {
        return None;
    };
    entry_of(place, &spaced_words(front)?)
}

// The entry whose words these are at this place, if there is one.
#[tactic(auto, unfolding(crate::specs::Entries::entry_of))]
fn entry_of(place: Place, words: &[&[u8]]) -> Option<Entry>
    ensures same { result ≡ entry_of place (texts words.now) }
    ensures parts { IfSome result (λ e. texts words.now ≡ map shown (entry_parts place e)) }
    ensures fits { IfSome result Fits }
{
    let [first, seat, words @ ..] = words else {
        return None;
    };
    if number_32(first)? != place {
        return None;
    }
    let seat = number_32(seat)?;
    let kind = kind_of(words)?;
    Some(Entry { seat, kind })
}

// The words of a line, if there are at most eight: no line of a log has more.
fn spaced_words(line: &[u8]) -> Option<ArrayVec<&[u8], 8>>
    ensures { MatchOption result (8 < length (spaced_words line.now)) (λ words. texts words.items ≡ spaced_words line.now) }
{
    let mut words = ArrayVec::new();
    for word in line.split(|byte| *byte == b' ') {
        if words.is_full() {
            return None;
        }
        words.push(word);
    }
    Some(words)
}
