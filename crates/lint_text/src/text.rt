ghost use Rattle.std.specs.Prelude.{◌≡◌, ◌++◌, codes, decimal, option_copied, OnOk, IfOk};
ghost use Rattle.lint_text.specs.Text.{before_words, behind_word, block_words, choice_words, complaint_words, count_words, is_end, late_words, limit_words, limited_name, lint_line, missing_words, not_started_words, order_words, posted_words, rule_words, script_posts_words, seat_words, stands_words, started_words, undeclared_words, unexpected_words, voter_words, with_length, with_line, with_word};

use crate::complaint::{Complaint, Limited};
use crate::expected::{add_expected, add_number, id_noun, noun, thing_name};
use crate::quote::quote;
use line_places::{Expected, Language, Length, Thing};
use std::alloc::{AllocError, Global};

/// The line that says what is wrong: `line 4, word 3: ` and the sentence, with a line feed. `line` and `place` count
/// from 1; `word` is what stands at the place, and is missing where nothing does. `front` stands before it all.
pub(crate) fn lint_line(
    alloc: Global,
    front: &[u8],
    line: u32,
    place: usize,
    complaint: &Complaint,
    word: Option<&[u8]>,
) -> Result<Vec<u8>, AllocError>
    ensures { IfOk result (λ text. text.items ≡ lint_line front.now line place complaint.now (option_copied word.entry)) }
{
    let mut text = Vec::new(alloc);
    text.extend_from_slice(front)?;
    text.extend_from_slice(b"line ")?;
    add_number(&mut text, u64::from(line))?;
    text.extend_from_slice(b", word ")?;
    add_number(&mut text, place as u64)?;
    text.extend_from_slice(b": ")?;
    add_complaint(&mut text, complaint, word)?;
    text.extend_from_slice(b"\n")?;
    Ok(text)
}

/// Adds the sentence on a complaint, where this word stands at the place, or none.
fn add_complaint(
    text: &mut Vec<u8>,
    complaint: &Complaint,
    word: Option<&[u8]>,
) -> Result<(), AllocError>
    ensures { OnOk result (text.new.items ≡ complaint_words text.old.items complaint.now (option_copied word.entry)) }
{
    match *complaint {
        Complaint::NotAscii => add_behind(text, word, b" has a byte above 127: only comments may"),
        Complaint::Unexpected {
            language,
            expected,
            reason,
            length,
        } => add_unexpected(text, language, expected, reason, length, word),
        Complaint::OutOfOrder { of, next } => add_order(text, word, of, next),
        Complaint::Undeclared { of, count } => add_undeclared(text, word, of, count),
        Complaint::NotBefore { task } => add_before(text, word, task),
        Complaint::NoVoter { voters } => add_voters(text, word, voters),
        Complaint::NoSeat { workers } => add_seats(text, word, workers),
        Complaint::PostedTwice { task, line } => add_posted(text, task, line),
        Complaint::PostedByScript { task } => add_posted_by_script(text, task),
        Complaint::Late { action, line } => add_late(text, word, action, line),
        Complaint::OpensSecond => add_behind(text, word, b" opens a scope while one is open"),
        Complaint::ClosesNone => add_behind(text, word, b" closes no scope: none is open"),
        Complaint::StaysOpen => add_behind(text, word, b" opens a scope that stays open"),
        Complaint::MayNotBlock { task, runner } => add_block(text, task, runner),
        Complaint::NoJobStep => add_behind(text, word, b" is no step of a job: add, mul or set"),
        Complaint::StartedBefore { job, line } => add_started(text, job, line),
        Complaint::NotStarted { job } => add_not_started(text, job),
        Complaint::StandsBefore { line } => add_stands(text, word, line),
        Complaint::TooMany { of, most } => add_limit(text, of, most),
        Complaint::Breaks { reason } => add_rule(text, word, reason),
    }
}

/// Adds the word at the place, if there is one.
fn add_word(text: &mut Vec<u8>, word: Option<&[u8]>) -> Result<(), AllocError>
    ensures { OnOk result (text.new.items ≡ with_word text.old.items (option_copied word.entry)) }
{
    match word {
        Some(word) => quote(text, word),
        None => Ok(()),
    }
}

/// Adds the word at the place, and words behind it.
fn add_behind(text: &mut Vec<u8>, word: Option<&[u8]>, words: &[u8]) -> Result<(), AllocError>
    ensures { OnOk result (text.new.items ≡ with_word text.old.items (option_copied word.entry) ++ words.now) }
{
    add_word(text, word)?;
    text.extend_from_slice(words)
}

/// Adds a line's number, if it was found.
fn add_line(text: &mut Vec<u8>, line: Option<u32>) -> Result<(), AllocError>
    ensures { OnOk result (text.new.items ≡ with_line text.old.items line) }
{
    match line {
        Some(line) => {
            text.extend_from_slice(b" on line ")?;
            add_number(text, u64::from(line))
        }
        None => text.extend_from_slice(b" on an earlier line"),
    }
}

/// Adds that the word can't stand where this is expected.
fn add_unexpected(
    text: &mut Vec<u8>,
    language: Language,
    expected: Expected,
    reason: u8,
    length: Option<Length>,
    word: Option<&[u8]>,
) -> Result<(), AllocError>
    ensures { OnOk result (text.new.items ≡ unexpected_words text.old.items language expected reason length (option_copied word.entry)) }
{
    if reason == 3 {
        add_count(text, language, expected, word)?;
        add_length(text, length)
    } else {
        add_choice(text, language, expected, reason, word)
    }
}

/// Adds that words are missing at the place, or that it has one too many.
fn add_count(
    text: &mut Vec<u8>,
    language: Language,
    expected: Expected,
    word: Option<&[u8]>,
) -> Result<(), AllocError>
    ensures { OnOk result (text.new.items ≡ count_words text.old.items language expected (option_copied word.entry)) }
{
    match word {
        None => {
            text.extend_from_slice(b"a ")?;
            add_missing(text, language, expected)
        }
        Some(word) => {
            quote(text, word)?;
            add_behind_word(text, language, expected)
        }
    }
}

/// Adds that the word before it is one too many, or stands where another is missing.
fn add_behind_word(
    text: &mut Vec<u8>,
    language: Language,
    expected: Expected,
) -> Result<(), AllocError>
    ensures { OnOk result (text.new.items ≡ behind_word text.old.items language expected) }
{
    if is_end(expected) {
        return text.extend_from_slice(b" is one word too many");
    }
    text.extend_from_slice(b" stands where a ")?;
    add_missing(text, language, expected)
}

/// Adds what is missing, and what may stand there.
fn add_missing(text: &mut Vec<u8>, language: Language, expected: Expected) -> Result<(), AllocError>
    ensures { OnOk result (text.new.items ≡ missing_words text.old.items language expected) }
{
    text.extend_from_slice(noun(expected))?;
    text.extend_from_slice(b" is missing: ")?;
    add_expected(text, language, expected)
}

/// Whether no word may stand there.
fn is_end(expected: Expected) -> bool
    ensures { result ≡ is_end expected }
{
    matches!(expected, Expected::End)
}

/// Adds how many words a line takes.
fn add_length(text: &mut Vec<u8>, length: Option<Length>) -> Result<(), AllocError>
    ensures { OnOk result (text.new.items ≡ with_length text.old.items length) }
{
    let Some(length) = length else {
        return Ok(());
    };
    text.extend_from_slice(b"; the line takes ")?;
    if length.least != length.most {
        add_number(text, length.least as u64)?;
        text.extend_from_slice(b" or ")?;
    }
    add_number(text, length.most as u64)?;
    text.extend_from_slice(if length.most == 1 {
        b" word"
    } else {
        b" words"
    })
}

/// Adds that the word is none of those that are expected, or a number out of its range.
fn add_choice(
    text: &mut Vec<u8>,
    language: Language,
    expected: Expected,
    reason: u8,
    word: Option<&[u8]>,
) -> Result<(), AllocError>
    ensures { OnOk result (text.new.items ≡ choice_words text.old.items language expected reason (option_copied word.entry)) }
{
    add_word(text, word)?;
    if reason == 5 {
        text.extend_from_slice(b" is out of range: ")?;
    } else {
        text.extend_from_slice(b" is no ")?;
        text.extend_from_slice(noun(expected))?;
        text.extend_from_slice(b": ")?;
    }
    add_expected(text, language, expected)
}

fn add_order(
    text: &mut Vec<u8>,
    word: Option<&[u8]>,
    of: Thing,
    next: u64,
) -> Result<(), AllocError>
    ensures { OnOk result (text.new.items ≡ order_words (with_word text.old.items (option_copied word.entry)) of next) }
{
    add_behind(text, word, b" is not the next ")?;
    text.extend_from_slice(id_noun(of))?;
    text.extend_from_slice(b": ")?;
    add_number(text, next)
}

fn add_undeclared(
    text: &mut Vec<u8>,
    word: Option<&[u8]>,
    of: Thing,
    count: u64,
) -> Result<(), AllocError>
    ensures { OnOk result (text.new.items ≡ undeclared_words (with_word text.old.items (option_copied word.entry)) of count) }
{
    add_behind(text, word, b" is no ")?;
    text.extend_from_slice(thing_name(of))?;
    text.extend_from_slice(b" that is declared: so far ")?;
    add_number(text, count)
}

fn add_before(text: &mut Vec<u8>, word: Option<&[u8]>, task: u32) -> Result<(), AllocError>
    ensures { OnOk result (text.new.items ≡ before_words (with_word text.old.items (option_copied word.entry)) task) }
{
    add_behind(text, word, b" is no task that is declared before task ")?;
    add_number(text, u64::from(task))
}

fn add_voters(text: &mut Vec<u8>, word: Option<&[u8]>, voters: u64) -> Result<(), AllocError>
    ensures { OnOk result (text.new.items ≡ voter_words (with_word text.old.items (option_copied word.entry)) voters) }
{
    add_behind(text, word, b" is no voter of the queue: it has ")?;
    add_number(text, voters)
}

fn add_seats(text: &mut Vec<u8>, word: Option<&[u8]>, workers: u64) -> Result<(), AllocError>
    ensures { OnOk result (text.new.items ≡ seat_words (with_word text.old.items (option_copied word.entry)) workers) }
{
    add_behind(text, word, b" names no worker seat: the script has ")?;
    add_number(text, workers)
}

fn add_late(
    text: &mut Vec<u8>,
    word: Option<&[u8]>,
    action: bool,
    line: Option<u32>,
) -> Result<(), AllocError>
    ensures { OnOk result (text.new.items ≡ late_words (with_word text.old.items (option_copied word.entry)) action line) }
{
    if action {
        add_behind(text, word, b" stands after an action,")?;
    } else {
        add_behind(text, word, b" stands after a declaration,")?;
    }
    add_line(text, line)
}

/// Adds `task` and its number.
fn add_task(text: &mut Vec<u8>, task: u32) -> Result<(), AllocError>
    ensures { OnOk result (text.new.items ≡ text.old.items ++ codes "task " ++ decimal task) }
{
    text.extend_from_slice(b"task ")?;
    add_number(text, u64::from(task))
}

/// Adds `job` and its number.
fn add_job(text: &mut Vec<u8>, job: u32) -> Result<(), AllocError>
    ensures { OnOk result (text.new.items ≡ text.old.items ++ codes "job " ++ decimal job) }
{
    text.extend_from_slice(b"job ")?;
    add_number(text, u64::from(job))
}

fn add_posted(text: &mut Vec<u8>, task: u32, line: Option<u32>) -> Result<(), AllocError>
    ensures { OnOk result (text.new.items ≡ posted_words text.old.items task line) }
{
    add_task(text, task)?;
    match line {
        Some(line) => {
            text.extend_from_slice(b" is posted on line ")?;
            add_number(text, u64::from(line))?;
            text.extend_from_slice(b" too")
        }
        None => text.extend_from_slice(b" is posted on this line before"),
    }
}

fn add_posted_by_script(text: &mut Vec<u8>, task: u32) -> Result<(), AllocError>
    ensures { OnOk result (text.new.items ≡ script_posts_words text.old.items task) }
{
    add_task(text, task)?;
    text.extend_from_slice(b" is posted by the script too")
}

fn add_block(text: &mut Vec<u8>, task: u32, runner: Option<u32>) -> Result<(), AllocError>
    ensures { OnOk result (text.new.items ≡ block_words text.old.items task runner) }
{
    add_task(text, task)?;
    match runner {
        Some(runner) => {
            text.extend_from_slice(b" opens a blocking scope, and runner ")?;
            add_number(text, u64::from(runner))?;
            text.extend_from_slice(b" has no mayblock")
        }
        None => text.extend_from_slice(b" opens a blocking scope, and no main queue takes one"),
    }
}

fn add_started(text: &mut Vec<u8>, job: u32, line: Option<u32>) -> Result<(), AllocError>
    ensures { OnOk result (text.new.items ≡ started_words text.old.items job line) }
{
    add_job(text, job)?;
    text.extend_from_slice(b" is started")?;
    add_line(text, line)?;
    text.extend_from_slice(b" already")
}

fn add_not_started(text: &mut Vec<u8>, job: u32) -> Result<(), AllocError>
    ensures { OnOk result (text.new.items ≡ not_started_words text.old.items job) }
{
    add_job(text, job)?;
    text.extend_from_slice(b" is not started before")
}

fn add_stands(text: &mut Vec<u8>, word: Option<&[u8]>, line: Option<u32>) -> Result<(), AllocError>
    ensures { OnOk result (text.new.items ≡ stands_words (with_word text.old.items (option_copied word.entry)) line) }
{
    add_behind(text, word, b" stands")?;
    add_line(text, line)?;
    text.extend_from_slice(b" already")
}

fn add_limit(text: &mut Vec<u8>, of: Limited, most: u64) -> Result<(), AllocError>
    ensures { OnOk result (text.new.items ≡ limit_words text.old.items of most) }
{
    text.extend_from_slice(b"with this line there are more than ")?;
    add_number(text, most)?;
    text.extend_from_slice(limited_name(of))
}

fn add_rule(text: &mut Vec<u8>, word: Option<&[u8]>, reason: u8) -> Result<(), AllocError>
    ensures { OnOk result (text.new.items ≡ rule_words (with_word text.old.items (option_copied word.entry)) reason) }
{
    add_behind(text, word, b" begins a line that breaks rule ")?;
    add_number(text, u64::from(reason))
}

/// What has a limit.
fn limited_name(of: Limited) -> &'static [u8]
    ensures { result.now ≡ limited_name of }
{
    match of {
        Limited::Runners => b" runners",
        Limited::Queues => b" main queues",
        Limited::Tasks => b" tasks",
        Limited::Jobs => b" jobs",
        Limited::Items => b" items of jobs",
        Limited::Steps => b" steps",
        Limited::Ticks => b" ticks",
        Limited::Entries => b" entries of a run",
        Limited::Actions => b" actions",
    }
}
