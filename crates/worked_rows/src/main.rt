//! Plays the worked rows of the tables that its arguments name, each through `run_words`, and prints one line a row.
//!
//! Behind the word `--failing` stand tables whose rows must all fail, or which must be damaged. Its status is 0 where all
//! is as it should be, 1 where a row is not, and 2 where a table is not read, is damaged, or has no row, and where no
//! table is named.
#![tactic(auto)]

mod play;

use anyhow::{Result, anyhow, ensure};
use play::play;
use row_table::{Row, begins_row, take_line};
use std::process::ExitCode;
use std::rt::{Clock, Env, Files};
use std::sync::Wait;
use std::thread::Threads;
use std::{env, fs};

/// Plays the row that ends here, if there is one, prints its line, and answers whether it is as it should be: it holds, or
/// fails where it must.
fn play_row<R: Print + AllocGlobal + Threads + Wait + Sync + Clock>(
    rt: &R,
    row: Option<&mut Row<'_>>,
    must_fail: bool,
) -> Result<bool> {
    let Some(row) = row else {
        return Ok(true);
    };
    let name = row.name;
    match (play(rt, row)?, must_fail) {
        (None, false) => println!(rt; "ok {name}")?,
        (None, true) => println!(rt; "HOLDS {name}")?,
        (Some(complaint), false) => println!(rt; "FAILED {name}: {complaint}")?,
        (Some(complaint), true) => {
            println!(rt; "fails {name}: {complaint}")?;
            return Ok(true);
        }
    }
    Ok(!must_fail)
}

/// Plays the rows of a table, and answers whether each is as it should be. The line is the one that was read last; the
/// error is what is wrong with it.
fn play_lines<R: Print + AllocGlobal + Threads + Wait + Sync + Clock>(
    rt: &R,
    table: &str,
    must_fail: bool,
    line: &mut u64,
) -> Result<bool> {
    let (mut rows, mut base, mut is_right) = (Vec::new(rt.alloc()), 0, true);
    for text in table.split('\n') {
        *line = line.saturating_add(1);
        if begins_row(text) {
            is_right &= play_row(rt, rows.last_mut(), must_fail)?;
        }
        take_line(rt.alloc(), &mut rows, &mut base, text)?;
    }
    ensure!(!rows.is_empty(), "no row");
    Ok(play_row(rt, rows.last_mut(), must_fail)? && is_right)
}

/// Plays a table, and answers its status.
fn play_table<R: Files + Print + AllocGlobal + Threads + Wait + Sync + Clock>(
    rt: &R,
    path: &str,
    must_fail: bool,
) -> Result<u8> {
    let mut line = 0;
    let played = match fs::read_to_string(rt, path) {
        Ok(table) => play_lines(rt, &table, must_fail, &mut line),
        Err(_) => Err(anyhow!("it is not read")),
    };
    match played {
        Ok(is_right) => Ok(u8::from(!is_right)),
        Err(flaw) if must_fail => {
            println!(rt; "damaged {path}: line {line}: {flaw}")?;
            Ok(0)
        }
        Err(flaw) => {
            println!(rt; "DAMAGED {path}: line {line}: {flaw}")?;
            Ok(2)
        }
    }
}

/// Plays the tables that the arguments name, and answers the status.
fn play_tables<R: Files + Env + Print + AllocGlobal + Threads + Wait + Sync + Clock>(
    rt: &R,
) -> Result<u8> {
    let (mut status, mut must_fail) = (None, false);
    for word in env::args(rt)?.skip(1) {
        if word.as_str() == "--failing" {
            must_fail = true;
        } else {
            let played = play_table(rt, &word, must_fail)?;
            status = status.max(Some(played));
        }
    }
    Ok(status.unwrap_or(2))
}

fn main(rt: HostRuntime) -> ExitCode {
    ExitCode::from(play_tables(&rt).unwrap_or(2))
}
