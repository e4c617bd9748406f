ghost use Rattle.std.specs.Prelude.{◌≡◌, IfOk, option_map};
ghost use Rattle.line_text.specs.Words.{texts};
ghost use Rattle.nested_loop.specs.NestWords.{say_said, posting_said, bound_said, step_named, step_said, steps_said};

use crate::nest::NestStep;
use crate::numbers::{bound_of, id_of, number_in};
use line_words::is_mark;
use std::alloc::{AllocError, Global};
use task_base::{QueueId, Rows, TaskId};

/// The steps that words say, if they do: none, or some with `;` between them. The error is want of memory.
pub(crate) fn steps_said(
    alloc: Global,
    words: &[&[u8]],
) -> Result<Option<Rows<NestStep>>, AllocError>
    ensures { IfOk result (λ said. option_map (λ steps. steps.items) said ≡ steps_said (texts words.now)) }
{
    let mut steps = Rows::new(alloc);
    if words.is_empty() {
        return Ok(Some(steps));
    }
    for piece in words.split(|word| is_mark(word)) {
        let Some(step) = step_said(piece) else {
            return Ok(None);
        };
        steps.reserve(1)?;
        steps.push_spare(step);
    }
    Ok(Some(steps))
}

/// The step that its words say, if they do.
fn step_said(words: &[&[u8]]) -> Option<NestStep>
    ensures { result ≡ step_said (texts words.now) }
{
    match words {
        [name, words @ ..] => step_named(name, words),
        [] => None,
    }
}

/// The step of this name, with the words behind it.
#[tactic(auto, unfolding(crate::specs::NestWords::step_named))]
fn step_named(name: &[u8], words: &[&[u8]]) -> Option<NestStep>
    ensures { result ≡ step_named name.now (texts words.now) }
{
    if name == b"say".as_slice() {
        say_said(words)
    } else if name == b"post".as_slice() {
        let (task, queue) = posting_said(words)?;
        Some(NestStep::Post { task, queue })
    } else if name == b"loop".as_slice() {
        Some(NestStep::Loop(bound_said(words)?))
    } else {
        None
    }
}

/// The step that says a value.
fn say_said(words: &[&[u8]]) -> Option<NestStep>
    ensures { result ≡ say_said (texts words.now) }
{
    match words {
        [value] => Some(NestStep::Say(number_in(0, u64::MAX, value)?)),
        _ => None,
    }
}

/// The task and the queue of a step or an action that posts.
pub(crate) fn posting_said(words: &[&[u8]]) -> Option<(TaskId, QueueId)>
    ensures { result ≡ posting_said (texts words.now) }
{
    match words {
        [task, queue] => Some((id_of(task)?, id_of(queue)?)),
        _ => None,
    }
}

/// The bound of a loop, of a step or an action that runs one.
pub(crate) fn bound_said(words: &[&[u8]]) -> Option<u32>
    ensures { result ≡ bound_said (texts words.now) }
{
    match words {
        [bound] => bound_of(bound),
        _ => None,
    }
}
