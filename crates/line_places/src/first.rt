ghost use Rattle.std.specs.Prelude.{◌≡◌, ◌+◌, ◌<◌, ◌^◌, ◌∷◌, [], length, option_copied, MatchResult, Ok, Err};
ghost use Rattle.script_model.specs.Words.{is_all_ascii};
ghost use Rattle.line_places.specs.declared.expected.Expected.TheVariants.{Steps};
ghost use Rattle.line_places.specs.First.{at_end, at_place, behind_word, first_at, first_beyond_ascii, first_of_steps, first_place, found_at, is_steps, missing, sought_by, turn, turn_at_mark, turn_at_word};

use crate::expected::{Expected, Found, Language};
use crate::faults::{fault_of, is_required, takes_word};
use crate::tables::{places_of, step_places};
use line_words::{Reason, Words, is_mark};

/// The first place of a line at which this reason holds of its words, from 2 to 5 as those of a script, or any of them, where none
/// is given. The line has at most 4,294,967,295 bytes.
pub fn first_place(language: Language, sought: Option<u8>, line: &[u8]) -> Option<Found>
    requires { length line.now < 2 ^ 32 }
    ensures { result ≡ first_place language sought line.now }
{
    let mut words = Words::of(line);
    let command = words.next()?;
    match places_of(language, command) {
        Some(places) => first_at(language, sought, places, words),
        None => at_place(language, sought, Expected::Command, Some(command), 1),
    }
}

/// The first word with a byte above 127. The line has at most 4,294,967,295 bytes.
pub fn first_beyond_ascii(line: &[u8]) -> Option<usize>
    requires { length line.now < 2 ^ 32 }
    ensures { result ≡ first_beyond_ascii line.now }
{
    let mut words = Words::of(line);
    let mut place = 1;
    while let Some(word) = words.next() {
        if !is_all_ascii(word) {
            return Some(place);
        }
        place += 1;
    }
    None
}

/// Whether no byte is above 127.
fn is_all_ascii(word: &[u8]) -> bool
    ensures { result ≡ is_all_ascii word.now }
{
    word.iter().all(|byte| *byte < 128)
}

/// The first place of the words behind a command, whose places take these.
#[tactic(auto, unfolding(crate::specs::First::first_at))]
fn first_at(
    language: Language,
    sought: Option<u8>,
    places: &'static [Expected],
    mut words: Words<'_>,
) -> Option<Found>
    requires { length words < 2 ^ 33 }
    ensures { result ≡ first_at language sought places.entry.now words.entry 2 }
{
    let mut place = 2;
    for expected in places {
        if is_steps(*expected) {
            return first_of_steps(language, sought, words, place);
        }
        let here = at_place(language, sought, *expected, words.next(), place);
        if here.is_some() {
            return here;
        }
        place += 1;
    }
    None
}

/// Whether what a place takes are the steps of the line.
pub(crate) fn is_steps(expected: Expected) -> bool
    ensures { result ≡ is_steps expected }
{
    matches!(expected, Expected::Steps)
}

/// The first place of steps, which stand from this place on.
#[tactic(auto, unfolding(crate::specs::First::first_of_steps))]
fn first_of_steps(
    language: Language,
    sought: Option<u8>,
    mut words: Words<'_>,
    from: usize,
) -> Option<Found>
    requires { from + length words < 2 ^ 64 }
    ensures { result ≡ first_of_steps language sought (Steps ∷ []) words.entry from }
{
    let mut expected: &'static [Expected] = &[Expected::Steps];
    let mut place = from;
    while let Some(word) = words.next() {
        match turn(language, sought, expected, word, place) {
            Ok(next) => expected = next,
            Err(found) => return Some(found),
        }
        place += 1;
    }
    at_end(sought, expected, place)
}

/// What is expected behind a word of a step where these are expected; or the place, if it is the one that is sought.
fn turn(
    language: Language,
    sought: Option<u8>,
    expected: &'static [Expected],
    word: &[u8],
    place: usize,
) -> Result<&'static [Expected], Found>
    ensures { MatchResult result (λ next. turn language sought expected.entry.now word.now place ≡ Ok next.now)
        (λ found. turn language sought expected.entry.now word.now place ≡ Err found) }
{
    if is_mark(word) {
        turn_at_mark(sought, expected, place)
    } else {
        turn_at_word(language, sought, expected, word, place)
    }
}

/// The same where `;` stands.
fn turn_at_mark(
    sought: Option<u8>,
    expected: &'static [Expected],
    place: usize,
) -> Result<&'static [Expected], Found>
    ensures { MatchResult result (λ next. turn_at_mark sought expected.entry.now place ≡ Ok next.now)
        (λ found. turn_at_mark sought expected.entry.now place ≡ Err found) }
{
    match expected {
        [first, ..] => match missing(sought, takes_word(*first), place, *first) {
            Some(found) => Err(found),
            None => Ok(&[Expected::Step]),
        },
        [] => Ok(&[Expected::Step]),
    }
}

/// The same where another word stands.
fn turn_at_word(
    language: Language,
    sought: Option<u8>,
    expected: &'static [Expected],
    word: &[u8],
    place: usize,
) -> Result<&'static [Expected], Found>
    ensures { MatchResult result (λ next. turn_at_word language sought expected.entry.now word.now place ≡ Ok next.now)
        (λ found. turn_at_word language sought expected.entry.now word.now place ≡ Err found) }
{
    match expected {
        [first, rest @ ..] => match found_at(
            sought_by(sought, fault_of(language, *first, word)),
            place,
            *first,
        ) {
            Some(found) => Err(found),
            None => Ok(behind_word(language, *first, rest, word)),
        },
        [] => Ok(expected),
    }
}

/// What is expected behind a word at whose place this was expected, and behind it those.
fn behind_word(
    language: Language,
    expected: Expected,
    rest: &'static [Expected],
    word: &[u8],
) -> &'static [Expected]
    ensures { result.now ≡ behind_word language expected rest.entry.now word.now }
{
    match expected {
        Expected::Step | Expected::Steps => step_places(language, word).unwrap_or(&[]),
        Expected::End => &[],
        _ => rest,
    }
}

/// The end of the steps where these are expected.
fn at_end(sought: Option<u8>, expected: &[Expected], place: usize) -> Option<Found>
    ensures { result ≡ at_end sought expected.now place }
{
    let first = *expected.first()?;
    missing(sought, is_required(first), place, first)
}

/// A place that is none of a step's, with the word there, if there is one.
fn at_place(
    language: Language,
    sought: Option<u8>,
    expected: Expected,
    word: Option<&[u8]>,
    place: usize,
) -> Option<Found>
    ensures { result ≡ at_place language sought expected (option_copied word.entry) place }
{
    match word {
        None => missing(sought, is_required(expected), place, expected),
        Some(word) => found_at(
            sought_by(sought, fault_of(language, expected, word)),
            place,
            expected,
        ),
    }
}

/// The place, if a word is missing there, and that is sought.
fn missing(sought: Option<u8>, is_fault: bool, place: usize, expected: Expected) -> Option<Found>
    ensures { result ≡ missing sought is_fault place expected }
{
    let fault = if is_fault {
        Some(Reason::WORD_COUNT)
    } else {
        None
    };
    found_at(sought_by(sought, fault), place, expected)
}

/// The place, if there is a fault at it.
fn found_at(fault: Option<Reason>, place: usize, expected: Expected) -> Option<Found>
    ensures { result ≡ found_at fault place expected }
{
    let reason = fault?.number();
    Some(Found {
        place,
        expected,
        reason,
    })
}

/// The fault, if it is the one that is sought: of a certain reason, or any.
fn sought_by(sought: Option<u8>, fault: Option<Reason>) -> Option<Reason>
    ensures { result ≡ sought_by sought fault }
{
    match (sought, fault) {
        (Some(reason), Some(fault)) if fault.number() != reason => None,
        _ => fault,
    }
}
