ghost use Rattle.std.specs.Prelude.{◌≡◌, ◌++◌, codes, decimal, OnOk};
ghost use Rattle.lint_text.specs.Expected.{choices, commands, expected_words, id_noun, noun, steps, thing_name};

use itoa::Buffer;
use line_places::{Expected, Language, Thing};
use std::alloc::AllocError;

/// Adds a number in decimal, without zeros in front.
pub(crate) fn add_number(text: &mut Vec<u8>, number: u64) -> Result<(), AllocError>
    ensures { OnOk result (text.new.items ≡ text.old.items ++ decimal number) }
{
    text.extend_from_slice(Buffer::new().format(number).as_bytes())
}

/// The name of a thing.
pub(crate) fn thing_name(of: Thing) -> &'static [u8]
    ensures { result.now ≡ thing_name of }
{
    match of {
        Thing::Runner => b"runner",
        Thing::Queue => b"main queue",
        Thing::Task => b"task",
        Thing::Job => b"job",
    }
}

/// What the word of a place is called.
pub(crate) fn noun(expected: Expected) -> &'static [u8]
    ensures { result.now ≡ noun expected }
{
    match expected {
        Expected::Command => b"command",
        Expected::Step => b"step",
        Expected::Steps => b"step",
        Expected::Number { .. } => b"number",
        Expected::Id { of } => id_noun(of),
        Expected::Kind => b"kind of runner",
        Expected::Priority => b"priority",
        Expected::Behaviour => b"behaviour",
        Expected::MayBlock => b"word for this place",
        Expected::Policy => b"policy",
        Expected::Fence => b"place of a fence",
        Expected::Vote => b"vote",
        Expected::Scope => b"kind of scope",
        Expected::Home => b"home of a reply",
        Expected::Nestable => b"kind of task",
        Expected::End => b"word for this place",
    }
}

/// What the number of a thing is called.
pub(crate) fn id_noun(of: Thing) -> &'static [u8]
    ensures { result.now ≡ id_noun of }
{
    match of {
        Thing::Runner => b"runner's number",
        Thing::Queue => b"main queue's number",
        Thing::Task => b"task's number",
        Thing::Job => b"job's number",
    }
}

/// The commands of a language.
fn commands(language: Language) -> &'static [u8]
    ensures { result.now ≡ commands language }
{
    match language {
        Language::Script =>
            b"workers, groups, threshold, runner, queue, task, job, post, main, tick, policy, reprio, fence, unfence, vote, rank, close, pump, flush, startjob, join, cancel or shutdown",
        Language::Replies => b"reply",
        Language::Nest => b"queue, task, post or run",
    }
}

/// The steps of a language.
fn steps(language: Language) -> &'static [u8]
    ensures { result.now ≡ steps language }
{
    match language {
        Language::Script => b"add, mul, set, post, main, block or unblock",
        Language::Replies => b"none",
        Language::Nest => b"say, post or loop",
    }
}

/// The words that may stand at a place that takes no number.
fn choices(language: Language, expected: Expected) -> &'static [u8]
    ensures { result.now ≡ choices language expected }
{
    match expected {
        Expected::Command => commands(language),
        Expected::Step | Expected::Steps => steps(language),
        Expected::Kind => b"parallel, sequenced or single:W, where W is 1 to 64",
        Expected::Priority => b"best_effort, user_visible or user_blocking",
        Expected::Behaviour => b"continue, skip or block",
        Expected::MayBlock => b"mayblock",
        Expected::Policy => b"all, foreground or none",
        Expected::Fence => b"now or start",
        Expected::Vote => b"on or off",
        Expected::Scope => b"may or will",
        Expected::Home => b"runner or queue",
        Expected::Nestable => b"nestable or deferred",
        _ => b"none",
    }
}

/// Adds what may stand at a place: the words, or the least number and the greatest one.
pub(crate) fn add_expected(
    text: &mut Vec<u8>,
    language: Language,
    expected: Expected,
) -> Result<(), AllocError>
    ensures { OnOk result (text.new.items ≡ expected_words text.old.items language expected) }
{
    match expected {
        Expected::Number { low, high } => add_range(text, low, high),
        Expected::Id { .. } => add_range(text, 0, u64::from(u32::MAX)),
        _ => text.extend_from_slice(choices(language, expected)),
    }
}

/// Adds the least number and the greatest one.
fn add_range(text: &mut Vec<u8>, low: u64, high: u64) -> Result<(), AllocError>
    ensures { OnOk result (text.new.items ≡ text.old.items ++ decimal low ++ codes " to " ++ decimal high) }
{
    add_number(text, low)?;
    text.extend_from_slice(b" to ")?;
    add_number(text, high)
}
