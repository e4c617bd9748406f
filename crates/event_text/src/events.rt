ghost use Rattle.std.specs.Prelude.{◌≡◌, ◌<◌, ◌∷◌, ◌++◌, [], ◌^◌, List, None, MatchOption, IfSome, length};
ghost use Rattle.std.specs.Fmt.{decimal};
ghost use Rattle.line_text.specs.Words.{texts};
ghost use Rattle.log_model.specs.Fits.{Fits};
ghost use Rattle.order_model.specs.declared.event.Event.{Event};
ghost use Rattle.event_text.specs.EventText.{EventFits, entry_words, event_words};
ghost use Rattle.event_text.specs.Reading.{IsEventLine, closing_of, entry_of, event_of, spaced_words, timed_of, untimed_of};

use arrayvec::ArrayVec;
use entry_lines::kind_of;
use numeral_text::{number_32, number_64};
use order_model::{Event, Span};
use task_base::Entry;

/// The event whose line these bytes are, if there is one.
pub(crate) fn event_at(bytes: &[u8]) -> Option<Event>
    ensures found { IfSome result (λ e. IsEventLine bytes.now e) }
    ensures none { result ≡ None → (e : Event) → ¬ IsEventLine bytes.now e }
{
    let [front @ .., b'\n'] = bytes else {
        return None;
    };
    event_of(&spaced_words(front)?)
}

// The event whose words these are, if there is one.
#[tactic(auto, unfolding(crate::specs::Reading::event_of))]
fn event_of(words: &[&[u8]]) -> Option<Event>
    ensures same { result ≡ event_of (texts words.now) }
    ensures words { IfSome result (λ e. texts words.now ≡ event_words e) }
    ensures fits { IfSome result EventFits }
{
    let [first, rest @ ..] = words else {
        return None;
    };
    match *first {
        [] => None,
        [b'[', from @ ..] => timed_of(from, rest),
        _ => untimed_of(words),
    }
}

// The event that begins with the time of these digits, after a bracket, and goes on with these words, if there is one.
#[tactic(auto, unfolding(crate::specs::Reading::timed_of))]
fn timed_of(digits: &[u8], words: &[&[u8]]) -> Option<Event>
    ensures same { result ≡ timed_of digits.now (texts words.now) }
    ensures words { IfSome result (λ e. (91 ∷ digits.now) ∷ texts words.now ≡ event_words e) }
    ensures fits { IfSome result EventFits }
{
    let [second, words @ ..] = words else {
        return None;
    };
    let from = number_64(digits)?;
    let to = closing_of(second)?;
    let entry = entry_of(words)?;
    Some(Event {
        entry,
        span: Some(Span { from, to }),
    })
}

// The event without a span whose words these are, if there is one.
#[tactic(auto, unfolding(crate::specs::Reading::untimed_of))]
fn untimed_of(words: &[&[u8]]) -> Option<Event>
    ensures same { result ≡ untimed_of (texts words.now) }
    ensures words { IfSome result (λ e. texts words.now ≡ event_words e) }
    ensures fits { IfSome result EventFits }
{
    let entry = entry_of(words)?;
    Some(Event { entry, span: None })
}

// The time that a word ends a span with: its digits stand before a closing bracket.
#[tactic(auto, unfolding(crate::specs::Reading::closing_of))]
fn closing_of(word: &[u8]) -> Option<u64>
    ensures same { result ≡ closing_of word.now }
    ensures text { IfSome result (λ to. word.now ≡ decimal to ++ 93 ∷ []) }
{
    let [digits @ .., b']'] = word else {
        return None;
    };
    number_64(digits)
}

// The entry whose words these are, if there is one.
#[tactic(auto, unfolding(crate::specs::Reading::entry_of))]
fn entry_of(words: &[&[u8]]) -> Option<Entry>
    ensures same { result ≡ entry_of (texts words.now) }
    ensures words { IfSome result (λ e. texts words.now ≡ entry_words e) }
    ensures fits { IfSome result Fits }
{
    let [seat, words @ ..] = words else {
        return None;
    };
    let seat = number_32(seat)?;
    let kind = kind_of(words)?;
    Some(Entry { seat, kind })
}

// The words of a line, if there are at most nine: no line of an event has more.
fn spaced_words(line: &[u8]) -> Option<ArrayVec<&[u8], 9>>
    ensures { MatchOption result (9 < length (spaced_words line.now)) (λ words. texts words.items ≡ spaced_words line.now) }
{
    let mut words = ArrayVec::new();
    for word in line.split(|byte| *byte == b' ') {
        if words.is_full() {
            return None;
        }
        words.push(word);
    }
    Some(words)
}
