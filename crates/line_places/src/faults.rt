ghost use Rattle.std.specs.Prelude.{◌≡◌};
ghost use Rattle.std.specs.Result.{result_err};
ghost use Rattle.script_model.specs.Places.{number_from, kind_named, may_block_named};
ghost use Rattle.line_places.specs.Faults.{choice_fault, fault_of, is_choice, is_required, takes_word};

use crate::expected::{Expected, Language};
use crate::tables::{places_of, step_places};
use line_words::{Reason, number_from};
use value_words::{
    behaviour_named, fence_named, policy_named, priority_named, scope_named, vote_named,
};

/// Why the word can't stand where this is expected, if it can't: one of the reasons 2 to 5 of a script.
pub(crate) fn fault_of(language: Language, expected: Expected, word: &[u8]) -> Option<Reason>
    ensures { result ≡ fault_of language expected word.now }
{
    match expected {
        Expected::Number { low, high } => number_from(low, high, word).err(),
        Expected::Id { .. } => number_from(0, u64::from(u32::MAX), word).err(),
        Expected::Kind => kind_fault(word),
        Expected::End => Some(Reason::WORD_COUNT),
        _ => choice_fault(language, expected, word),
    }
}

/// Why the word is no kind of runner, if it is none.
#[tactic(auto, unfolding(script_model::specs::Places::kind_named))]
fn kind_fault(word: &[u8]) -> Option<Reason>
    ensures { result ≡ result_err (kind_named word.now) }
{
    match word.strip_prefix(b"single:") {
        Some(seat) => number_from(1, 64, seat).err(),
        None => unknown(word == b"parallel".as_slice() || word == b"sequenced".as_slice()),
    }
}

/// An unknown word, unless it is known.
fn unknown(known: bool) -> Option<Reason>
    ensures { result ≡ choice_fault known }
{
    if known {
        None
    } else {
        Some(Reason::UNKNOWN_WORD)
    }
}

/// Why the word is none of those that are expected, if it is none.
fn choice_fault(language: Language, expected: Expected, word: &[u8]) -> Option<Reason>
    ensures { result ≡ choice_fault (is_choice language expected word.now) }
{
    unknown(is_choice(language, expected, word))
}

/// Whether the word is one of those that are expected.
fn is_choice(language: Language, expected: Expected, word: &[u8]) -> bool
    ensures { result ≡ is_choice language expected word.now }
{
    match expected {
        Expected::Command => places_of(language, word).is_some(),
        Expected::Step | Expected::Steps => step_places(language, word).is_some(),
        Expected::Priority => priority_named(word).is_some(),
        Expected::Behaviour => behaviour_named(word).is_some(),
        Expected::Policy => policy_named(word).is_some(),
        Expected::Fence => fence_named(word).is_some(),
        Expected::Vote => vote_named(word).is_some(),
        Expected::Scope => scope_named(word).is_some(),
        Expected::MayBlock => word == b"mayblock".as_slice(),
        Expected::Home => word == b"runner".as_slice() || word == b"queue".as_slice(),
        Expected::Nestable => word == b"nestable".as_slice() || word == b"deferred".as_slice(),
        _ => true,
    }
}

/// Whether the line may not end where this is expected.
pub(crate) fn is_required(expected: Expected) -> bool
    ensures { result ≡ is_required expected }
{
    !matches!(
        expected,
        Expected::Steps | Expected::MayBlock | Expected::End
    )
}

/// Whether a word is expected at all.
pub(crate) fn takes_word(expected: Expected) -> bool
    ensures { result ≡ takes_word expected }
{
    !matches!(expected, Expected::End)
}
