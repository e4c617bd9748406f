ghost use Rattle.std.specs.Prelude.{◌≡◌, ◌+◌, ◌≤◌, ◌++◌, length};
ghost use Rattle.task_base.specs.Fault.{note_of, reason_name, rule_note, status_of};

use line_text::{Line, add, add_decimal, add_word};
use std::alloc::AllocError;
use std::{fmt, str};
use thiserror::Error;

/// Why a run did not end with status 0. It is shown as its note.
#[derive(Debug, PartialEq, Eq, Error, Drop)]
pub enum Fault {
    /// The log is not that of a legal, whole run; `line` counts from 1.
    NotLegal { line: u32 },
    /// The words of the command line are none of the accepted ones.
    BadWords,
    /// The input is no script. `line` counts from 1, and `reason` is the number of the rule that it breaks.
    BadScript { line: u32, reason: u8 },
    /// Reading failed.
    ReadFault,
    /// Writing failed.
    WriteFault,
    /// An allocation failed. It carries that error, so that nothing else becomes this fault by mistake.
    NoMemory(AllocError),
    /// The input is longer than the limit.
    TooLarge,
}

impl fmt::Display for Fault {
    fn fmt<W: fmt::Write>(&self, f: &mut fmt::Formatter<W>) -> fmt::Result {
        match str::from_utf8(&self.note()) {
            Ok(note) => f.write_str(note),
            Err(_) => Err(fmt::Error),
        }
    }
}

impl Fault {
    /// The exit status, from 1 to 7 (this project's own rule).
    pub fn status(&self) -> u8
        ensures { result ≡ status_of self.now }
    {
        match self {
            Fault::NotLegal { .. } => 1,
            Fault::BadWords => 2,
            Fault::BadScript { .. } => 3,
            Fault::ReadFault => 4,
            Fault::WriteFault => 5,
            Fault::NoMemory(_) => 6,
            Fault::TooLarge => 7,
        }
    }

    /// What is told of the fault, without a line feed (this project's own rule). It takes no memory.
    pub fn note(&self) -> Line
        ensures note { result.items ≡ note_of self.now }
        ensures short { length result.items ≤ 100 }
    {
        let mut note = Line::new();
        match *self {
            Fault::NotLegal { line } => {
                add(&mut note, b"not legal: line ");
                add_decimal(&mut note, u64::from(line));
            }
            Fault::BadWords => add(&mut note, b"bad words"),
            Fault::BadScript { line, reason } => {
                let name = reason_name(reason);
                add_broken_rule(&mut note, b"bad script: line ", line, reason, name);
            }
            Fault::ReadFault => add(&mut note, b"read fault"),
            Fault::WriteFault => add(&mut note, b"write fault"),
            Fault::NoMemory(_) => add(&mut note, b"no memory"),
            Fault::TooLarge => add(&mut note, b"too large"),
        }
        note
    }
}

/// Adds what is told of a line that breaks a rule: these words, the line's number, and the rule by its number and its name.
pub fn add_broken_rule(note: &mut Line, words: &[u8], line: u32, reason: u8, name: &[u8])
    requires { length note.old.items + length words.now + length name.now ≤ 200 }
    ensures note { note.new.items ≡ note.old.items ++ words.now ++ rule_note line reason name.now }
    ensures short { length note.new.items ≤ length note.old.items + length words.now + length name.now + 50 }
{
    add(note, words);
    add_decimal(note, u64::from(line));
    add(note, b": reason ");
    add_decimal(note, u64::from(reason));
    add_word(note, name);
}

// The name of a rule of the script's grammar, by its number.
fn reason_name(reason: u8) -> &'static [u8]
    ensures name { result.now ≡ reason_name reason }
    ensures short { length result.now ≤ 15 }
{
    match reason {
        1 => b"NotAscii",
        2 => b"UnknownWord",
        3 => b"WordCount",
        4 => b"BadNumber",
        5 => b"OutOfRange",
        6 => b"OutOfOrder",
        7 => b"Undeclared",
        8 => b"PostedTwice",
        9 => b"DeclarationLate",
        10 => b"BadBlock",
        11 => b"JobUse",
        12 => b"ShutdownTwice",
        13 => b"ConfigTwice",
        14 => b"TooMany",
        _ => b"",
    }
}
