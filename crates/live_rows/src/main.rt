//! Plays the worked rows of the tables that its arguments name, each as a list of calls on one live core, and prints one line
//! a row.
//!
//! A row holds where each of its calls has the answer that it wants. It may say by its status that it is not to hold, or that
//! it is none. The program's status is 0 where all is as it should be, 1 where a row is not, and 2 where a table is not read,
//! is damaged, or has no row, and where no table is named.
#![tactic(auto)]

mod answers;
mod calls;
mod play;
mod table;

use anyhow::{Result, anyhow};
use play::{Outcome, play};
use row_table::Row;
use std::process::ExitCode;
use std::rt::{Env, Files};
use std::{env, fs};
use table::rows_of;

/// The word that the line of a row begins with, in capitals where another status was to come.
fn word_of(status: u8, is_right: bool) -> &'static str {
    match (status, is_right) {
        (0, true) => "ok",
        (0, false) => "HOLDS",
        (1, true) => "fails",
        (1, false) => "FAILED",
        (_, true) => "damaged",
        (_, false) => "DAMAGED",
    }
}

/// Plays a row, prints its line, and answers 0 where it has the status that it says, and else the program's status.
fn play_row<R: Print + AllocGlobal>(rt: &R, row: &Row<'_>) -> Result<u8> {
    let Outcome { status, complaint } = play(rt.alloc(), row)?;
    let is_right = status == row.status;
    let (word, name) = (word_of(status, is_right), row.name);
    println!(rt; "{word} {name}{complaint}")?;
    Ok(if is_right { 0 } else { status.max(1) })
}

/// Plays the rows of a table, and answers the status. The error is what is wrong with the table.
fn play_rows<R: Print + AllocGlobal>(rt: &R, table: &str) -> Result<u8> {
    let mut status = 0;
    for row in &rows_of(rt.alloc(), table)? {
        status = play_row(rt, row)?.max(status);
    }
    Ok(status)
}

/// Plays the table in a file, and answers the status.
fn play_table<R: Files + Print + AllocGlobal>(rt: &R, path: &str) -> Result<u8> {
    let played = match fs::read_to_string(rt, path) {
        Ok(table) => play_rows(rt, &table),
        Err(_) => Err(anyhow!("it is not read")),
    };
    match played {
        Ok(status) => Ok(status),
        Err(flaw) => {
            println!(rt; "DAMAGED {path}: {flaw}")?;
            Ok(2)
        }
    }
}

/// Plays the tables that the arguments name, and answers the status.
fn play_tables<R: Files + Env + Print + AllocGlobal>(rt: &R) -> Result<u8> {
    let mut status = None;
    for path in env::args(rt)?.skip(1) {
        let played = play_table(rt, &path)?;
        status = status.max(Some(played));
    }
    Ok(status.unwrap_or(2))
}

fn main(rt: HostRuntime) -> ExitCode {
    ExitCode::from(play_tables(&rt).unwrap_or(2))
}
