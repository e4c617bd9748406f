//! Plays a row.
ghost use Rattle.std.specs.Prelude.{IfOk};
ghost use Rattle.script_model.specs.Laws.Sound.{IsSound};
ghost use Rattle.live_rows.specs.Stands.{Stands};

use crate::answers::{answer_words, rest_words, wake_words};
use crate::calls::{Ask, asked};
use anyhow::{Context, Error, Result, bail, ensure};
use live_roster::LiveRoster;
use row_table::{Row, unless_same};
use std::alloc::{AllocError, Global};
use std::str;
use task_base::{MOST_BYTES, Script};
use task_script::{ScriptFault, read_script};

/// What came of a row.
#[derive(Drop)]
pub struct Outcome {
    /// 0 where all is as the row wants it, 1 where something is not, and 2 where it is no row.
    pub status: u8,
    /// What is not as it should be, behind a colon and a blank.
    pub complaint: String,
}

/// Plays a row.
pub fn play(alloc: Global, row: &Row<'_>) -> Result<Outcome, AllocError> {
    match unless_right(alloc, row) {
        Ok(None) => Ok(Outcome {
            status: 0,
            complaint: String::new(alloc),
        }),
        Ok(Some(complaint)) => Ok(Outcome {
            status: 1,
            complaint: format!(in alloc; ": {complaint}")?,
        }),
        Err(flaw) => Ok(Outcome {
            status: 2,
            complaint: format!(in alloc; ": {flaw}")?,
        }),
    }
}

/// What first is not as the row wants it. The error is why it is no row.
fn unless_right(alloc: Global, row: &Row<'_>) -> Result<Option<String>> {
    ensure!(row.wants.is_empty(), "a row of calls has no output");
    let text = str::from_utf8(row.input.as_slice()).context("the input is no text")?;
    let (plan, calls) = text.split_once("%%\n").context("no line `%%`")?;
    let script = script_of(alloc, plan)?;
    unless_opened(alloc, script, row.note.unwrap_or(""), calls)
}

/// The script that declares what there is. It has no actions.
fn script_of(alloc: Global, plan: &str) -> Result<Script>
    ensures { IfOk result IsSound }
{
    ensure!(plan.len() <= MOST_BYTES, "the plan is too long");
    match read_script(alloc, plan.as_bytes()) {
        Ok(script) if script.actions.is_empty() => Ok(script),
        Ok(_) => bail!("the plan has actions"),
        Err(ScriptFault::Bad { line, reason }) => {
            bail!("line {line} of the plan is bad, by reason {reason}")
        }
        Err(ScriptFault::Memory(error)) => Err(Error::from(error)),
    }
}

/// Opens a roster, and makes the calls on it. Where a note is wanted, that is to be why it is not opened.
fn unless_opened(alloc: Global, script: Script, note: &str, calls: &str) -> Result<Option<String>>
    requires { IsSound script }
{
    let got = match LiveRoster::open(alloc, script) {
        Ok(roster) if note.is_empty() => return unless_answered(alloc, roster, calls),
        Ok(_) => String::new(alloc),
        Err(error) => format!(in alloc; "{error}")?,
    };
    Ok(unless_same(alloc, note.as_bytes(), got.as_bytes())?)
}

/// Makes the calls of these lines, and tells which first has another answer than the one that is wanted of it. Lines are counted
/// from 1. The error is a line that has no call, or no answer.
fn unless_answered(alloc: Global, mut roster: LiveRoster, lines: &str) -> Result<Option<String>>
    requires { Stands roster }
{
    let mut number = 0u64;
    for line in lines.lines() {
        number = number.saturating_add(1);
        let Some((ask, wanted)) = asked(line) else {
            bail!("line {number}: no call with an answer");
        };
        let got = got_words(alloc, &mut roster, ask)?;
        if got.as_str() != wanted {
            return Ok(Some(format!(in alloc; "line {number}: wanted {wanted:?}, got {got:?}")?));
        }
    }
    Ok(None)
}

/// What came of what a line asks, in words: the answer, and who is woken.
#[tactic(auto, using(crate::proofs::Stands::stands_called, crate::proofs::Stands::stands_rested))]
fn got_words(alloc: Global, roster: &mut LiveRoster, ask: Ask) -> Result<String, AllocError>
    requires { Stands roster.old }
    ensures { Stands roster.new }
{
    match ask {
        Ask::Call { by, call } => {
            let (answer, wake) = roster.call(by, call);
            let woken = wake_words(alloc, wake)?;
            let words = answer_words(alloc, call.seat(), answer)?;
            format!(in alloc; "{words}{woken}")
        }
        Ask::Rest { call } => {
            let (answer, wake) = roster.rest(call);
            let woken = wake_words(alloc, wake)?;
            let words = rest_words(answer);
            format!(in alloc; "{words}{woken}")
        }
    }
}
