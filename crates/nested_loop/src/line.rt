ghost use Rattle.std.specs.Prelude.{◌≡◌, IfOk};
ghost use Rattle.line_text.specs.Words.{texts};
ghost use Rattle.nested_loop.specs.NestWords.{nestable_named, queue_said, task_said, command_said, nest_plain_said, nest_words_said, nest_line_said};

use crate::nest::{NestAction, NestTask};
use crate::numbers::{class_of, id_of};
use crate::steps::{bound_said, posting_said, steps_said};
use crate::words::words_of;
use line_words::begins_comment;
use std::alloc::{AllocError, Global};
use task_base::{QueueId, TaskId};

/// What one line of a nest script says (this project's own language).
#[derive(Debug, Drop)]
pub(crate) enum NestLine {
    /// Nothing: the line has no words, or is a comment.
    Nothing,
    /// A main queue is declared, of this priority class.
    Queue { number: QueueId, class: u8 },
    /// A task is declared.
    Task { number: TaskId, task: NestTask },
    /// This is done outside of all loops.
    Act { action: NestAction },
}

/// What a line says, without its line feed and a carriage return at its end, or nothing where it has no form that there
/// is. The error is want of memory.
pub(crate) fn line_said(alloc: Global, line: &[u8]) -> Result<Option<NestLine>, AllocError>
    ensures { IfOk result (λ said. said ≡ nest_line_said line.now) }
{
    let words = words_of(alloc, line)?;
    words_said(alloc, &words)
}

/// What the words of a line say.
fn words_said(alloc: Global, words: &[&[u8]]) -> Result<Option<NestLine>, AllocError>
    ensures { IfOk result (λ said. said ≡ nest_words_said (texts words.now)) }
{
    match words {
        [name, words @ ..] if !begins_comment(name) => command_said(alloc, name, words),
        _ => Ok(Some(NestLine::Nothing)),
    }
}

/// The line of this command, with the words behind it.
#[tactic(auto, unfolding(crate::specs::NestWords::command_said))]
fn command_said(alloc: Global, name: &[u8], words: &[&[u8]]) -> Result<Option<NestLine>, AllocError>
    ensures { IfOk result (λ said. said ≡ command_said name.now (texts words.now)) }
{
    if name == b"task".as_slice() {
        task_said(alloc, words)
    } else {
        Ok(plain_said(name, words))
    }
}

/// The line of this command, if it has no steps.
fn plain_said(name: &[u8], words: &[&[u8]]) -> Option<NestLine>
    ensures { result ≡ nest_plain_said name.now (texts words.now) }
{
    if name == b"queue".as_slice() {
        queue_said(words)
    } else if name == b"post".as_slice() {
        let (task, queue) = posting_said(words)?;
        let action = NestAction::Post { task, queue };
        Some(NestLine::Act { action })
    } else if name == b"run".as_slice() {
        let action = NestAction::Run(bound_said(words)?);
        Some(NestLine::Act { action })
    } else {
        None
    }
}

/// `queue Q CLASS`
fn queue_said(words: &[&[u8]]) -> Option<NestLine>
    ensures { result ≡ queue_said (texts words.now) }
{
    match words {
        [number, class] => Some(NestLine::Queue {
            number: id_of(number)?,
            class: class_of(class)?,
        }),
        _ => None,
    }
}

/// `task T nestable STEPS`, `task T deferred STEPS`
#[tactic(auto, unfolding(crate::specs::NestWords::task_said))]
fn task_said(alloc: Global, words: &[&[u8]]) -> Result<Option<NestLine>, AllocError>
    ensures { IfOk result (λ said. said ≡ task_said (texts words.now)) }
{
    let [number, kind, words @ ..] = words else {
        return Ok(None);
    };
    let (Some(number), Some(nestable)) = (id_of(number), nestable_named(kind)) else {
        return Ok(None);
    };
    let Some(steps) = steps_said(alloc, words)? else {
        return Ok(None);
    };
    let task = NestTask { nestable, steps };
    Ok(Some(NestLine::Task { number, task }))
}

/// Whether a task is nestable, by its word.
fn nestable_named(word: &[u8]) -> Option<bool>
    ensures { result ≡ nestable_named word.now }
{
    if word == b"nestable".as_slice() {
        Some(true)
    } else if word == b"deferred".as_slice() {
        Some(false)
    } else {
        None
    }
}
