ghost use Rattle.std.specs.Prelude.{◌≡◌};
ghost use Rattle.std.specs.Str.Lines.{strip_carriage_return};
ghost use Rattle.script_model.specs.Words.{is_all_ascii};
ghost use Rattle.script_lines.specs.Said.{line_said, command_said, action_command_said, queue_command_said};
ghost use Rattle.script_lines.specs.Plain.{plain_said};
ghost use Rattle.script_lines.specs.Saying.{Says};

use crate::command::Command;
use crate::fault::LineFault;
use crate::{actions, lines, stepped};
use line_words::{Reason, Words, begins_comment};
use std::alloc::Global;

/// What one line of a script says by its words alone. The line stands here without its line feed, and without a
/// carriage return at its end (`without_return`). A comment is not read past its first word.
///
/// `Bad` has the least of the reasons that the places of the line give, from 1 to 5; `Memory` may come at a line with
/// steps.
#[tactic(auto, unfolding(crate::specs::Said::words_said))]
pub fn read_line(alloc: Global, line: &[u8]) -> Result<Command, LineFault>
    ensures { Says result (line_said line.now) }
{
    let mut words = Words::of(line);
    let Some(name) = words.next() else {
        return Ok(Command::Nothing);
    };
    if begins_comment(name) {
        return Ok(Command::Nothing);
    }
    if !is_all_ascii(line) {
        return Err(LineFault::from(Reason::NOT_ASCII));
    }
    command(alloc, name, words)
}

/// A line without one carriage return at its end.
pub fn without_return(line: &[u8]) -> &[u8]
    ensures { result.now ≡ strip_carriage_return line.now }
{
    match line {
        [rest @ .., b'\r'] => rest,
        _ => line,
    }
}

/// Whether no byte is above 127.
fn is_all_ascii(bytes: &[u8]) -> bool
    ensures { result ≡ is_all_ascii bytes.now }
{
    bytes.iter().all(|byte| *byte < 128)
}

/// The command of this name, with the words behind it.
#[tactic(auto, unfolding(crate::specs::Said::command_said))]
fn command(alloc: Global, name: &[u8], words: Words<'_>) -> Result<Command, LineFault>
    ensures { Says result (command_said name.now words.entry) }
{
    if name == b"task".as_slice() {
        stepped::task(alloc, words)
    } else if name == b"job".as_slice() {
        stepped::job(alloc, words)
    } else {
        Ok(plain_command(name, words)?)
    }
}

/// The command of this name, if it has no steps.
fn plain_command(name: &[u8], words: Words<'_>) -> Result<Command, Reason>
    ensures { result ≡ plain_said name.now words.entry }
{
    if name == b"workers".as_slice() {
        lines::workers(words)
    } else if name == b"groups".as_slice() {
        lines::groups(words)
    } else if name == b"threshold".as_slice() {
        lines::threshold(words)
    } else if name == b"runner".as_slice() {
        lines::runner(words)
    } else if name == b"queue".as_slice() {
        lines::queue(words)
    } else {
        action(name, words)
    }
}

/// The action of this name.
#[tactic(auto, unfolding(crate::specs::Said::action_command_said))]
fn action(name: &[u8], words: Words<'_>) -> Result<Command, Reason>
    ensures { result ≡ action_command_said name.now words.entry }
{
    if name == b"post".as_slice() {
        actions::post(words)
    } else if name == b"main".as_slice() {
        actions::main_task(words)
    } else if name == b"policy".as_slice() {
        actions::policy(words)
    } else if name == b"reprio".as_slice() {
        actions::reprio(words)
    } else if name == b"flush".as_slice() {
        actions::flush(words)
    } else if name == b"startjob".as_slice() {
        actions::start_job(words)
    } else if name == b"join".as_slice() {
        actions::join(words)
    } else if name == b"cancel".as_slice() {
        actions::cancel(words)
    } else if name == b"shutdown".as_slice() {
        actions::shutdown(words)
    } else {
        queue_action(name, words)
    }
}

/// The action of this name, if it has to do with main queues or the clock.
#[tactic(auto, unfolding(crate::specs::Said::queue_command_said))]
fn queue_action(name: &[u8], words: Words<'_>) -> Result<Command, Reason>
    ensures { result ≡ queue_command_said name.now words.entry }
{
    if name == b"tick".as_slice() {
        actions::tick(words)
    } else if name == b"fence".as_slice() {
        actions::fence(words)
    } else if name == b"unfence".as_slice() {
        actions::unfence(words)
    } else if name == b"vote".as_slice() {
        actions::vote(words)
    } else if name == b"rank".as_slice() {
        actions::rank(words)
    } else if name == b"close".as_slice() {
        actions::close(words)
    } else if name == b"pump".as_slice() {
        actions::pump(words)
    } else {
        Err(Reason::UNKNOWN_WORD)
    }
}
