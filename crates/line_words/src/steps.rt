ghost use Rattle.std.specs.Prelude.{◌≡◌, IfOk};
ghost use Rattle.task_base.specs.declared.step.Step.TheVariants as steps;
ghost use Rattle.script_model.specs.Places.{compute_read, post_read, block_read, step_said, step_read, steps_read};
ghost use Rattle.line_words.specs.Steps.{with_step, unblock_read};

use crate::posting::read_posting;
use crate::reason::{Reason, both};
use crate::words::Words;
use std::alloc::{AllocError, Global};
use task_base::{Rows, Step, Task};

/// The steps that words say, as those of a task: none, or some with `;` between them. Where they say none, the inner
/// error is the least of their reasons; the outer one comes where an allocation failed.
pub fn read_steps(alloc: Global, words: Words<'_>) -> Result<Result<Task, Reason>, AllocError>
    ensures { IfOk result (λ read. read ≡ steps_read words.entry) }
{
    let mut read = Ok(Task {
        steps: Rows::new(alloc),
    });
    if words.is_empty() {
        return Ok(read);
    }
    let mut rest = Some(words);
    while let Some(words) = rest {
        let (piece, behind) = words.split_at_mark();
        read = and_step(read, read_step(piece))?;
        rest = behind;
    }
    Ok(read)
}

/// The steps and one more, or the least of the reasons.
fn and_step(
    steps: Result<Task, Reason>,
    step: Result<Step, Reason>,
) -> Result<Result<Task, Reason>, AllocError>
    ensures { IfOk result (λ more. more ≡ with_step steps step) }
{
    match both(steps, step) {
        Ok((mut task, step)) => match task.steps.push(step) {
            Ok(()) => Ok(Ok(task)),
            Err(_) => Err(AllocError),
        },
        Err(reason) => Ok(Err(reason)),
    }
}

/// The step that its words say.
fn read_step(mut words: Words<'_>) -> Result<Step, Reason>
    ensures { result ≡ step_read words.entry }
{
    match words.next() {
        Some(name) => step_named(name, words),
        None => Err(Reason::WORD_COUNT),
    }
}

/// The step of this name, with the words behind it.
#[tactic(auto, unfolding(script_model::specs::Places::step_said))]
fn step_named(name: &[u8], words: Words<'_>) -> Result<Step, Reason>
    ensures { result ≡ step_said name.now words.entry }
{
    if name == b"add".as_slice() {
        add(words)
    } else if name == b"mul".as_slice() {
        mul(words)
    } else if name == b"set".as_slice() {
        set(words)
    } else if name == b"post".as_slice() {
        post(words)
    } else if name == b"main".as_slice() {
        main_task(words)
    } else if name == b"block".as_slice() {
        block(words)
    } else if name == b"unblock".as_slice() {
        unblock(words)
    } else {
        Err(Reason::UNKNOWN_WORD)
    }
}

fn add(mut words: Words<'_>) -> Result<Step, Reason>
    ensures { result ≡ compute_read steps.Add words.entry }
{
    let number = words.number(0, u64::MAX);
    let (number, ()) = both(number, words.end())?;
    Ok(Step::Add(number))
}

fn mul(mut words: Words<'_>) -> Result<Step, Reason>
    ensures { result ≡ compute_read steps.Mul words.entry }
{
    let number = words.number(0, u64::MAX);
    let (number, ()) = both(number, words.end())?;
    Ok(Step::Mul(number))
}

fn set(mut words: Words<'_>) -> Result<Step, Reason>
    ensures { result ≡ compute_read steps.Set words.entry }
{
    let number = words.number(0, u64::MAX);
    let (number, ()) = both(number, words.end())?;
    Ok(Step::Set(number))
}

fn post(words: Words<'_>) -> Result<Step, Reason>
    ensures { result ≡ post_read steps.Post words.entry }
{
    let (task, (runner, (delay, ()))) = read_posting(words)?;
    Ok(Step::Post {
        task,
        runner,
        delay,
    })
}

fn main_task(words: Words<'_>) -> Result<Step, Reason>
    ensures { result ≡ post_read steps.Main words.entry }
{
    let (task, (queue, (delay, ()))) = read_posting(words)?;
    Ok(Step::Main { task, queue, delay })
}

fn block(mut words: Words<'_>) -> Result<Step, Reason>
    ensures { result ≡ block_read words.entry }
{
    let scope = words.scope();
    let (scope, ()) = both(scope, words.end())?;
    Ok(Step::Block(scope))
}

fn unblock(words: Words<'_>) -> Result<Step, Reason>
    ensures { result ≡ unblock_read words.entry }
{
    words.end()?;
    Ok(Step::Unblock)
}
