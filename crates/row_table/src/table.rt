//! Reads the lines of a table.
use crate::frame::{cut_log, replace_line, status_of};
use crate::row::{Form, Row, Want};
use anyhow::{Context, Result, bail};
use std::alloc::Global;
use std::str::FromStr;

fn number_of<N: FromStr + Drop>(text: &str) -> Result<N>
where
    N::Err: Drop,
{
    text.parse::<N>()
        .ok()
        .context("no number, or too large a one")
}

/// The numbers of a list that blanks part.
fn numbers_of<N: FromStr + Drop>(alloc: Global, list: &str) -> Result<Vec<N>>
where
    N::Err: Drop,
{
    let mut numbers = Vec::new(alloc);
    for word in list.split_whitespace() {
        numbers.push(number_of(word)?)?;
    }
    Ok(numbers)
}

/// The number that stands in a repeated line in place of `#`, `#+N` or `#%N`, given what is behind the `#`.
fn counted(number: u64, change: &str) -> Result<u64> {
    if let Some(more) = change.strip_prefix("+") {
        return Ok(number.saturating_add(number_of(more)?));
    }
    if let Some(by) = change.strip_prefix("%") {
        let by = number_of::<u64>(by)?;
        return number.checked_rem(by).context("a remainder by 0");
    }
    if !change.is_empty() {
        bail!("behind `#` stands neither a blank nor `+N` nor `%N`");
    }
    Ok(number)
}

/// Adds a line with a number in place of each `#`.
fn add_line(alloc: Global, bytes: &mut Vec<u8>, line: &str, number: u64) -> Result<()> {
    for word in line.split_inclusive(' ') {
        let (text, blank) = match word.strip_suffix(" ") {
            Some(text) => (text, " "),
            None => (word, ""),
        };
        match text.split_once("#") {
            None => bytes.extend_from_slice(text.as_bytes())?,
            Some((front, change)) => {
                let number = counted(number, change)?;
                bytes.extend_from_slice(format!(in alloc; "{front}{number}")?.as_bytes())?;
            }
        }
        bytes.extend_from_slice(blank.as_bytes())?;
    }
    bytes.push(b'\n')?;
    Ok(())
}

/// Adds a line for each number of a range: `0..9 task # add 1`.
fn add_lines(alloc: Global, bytes: &mut Vec<u8>, text: &str) -> Result<()> {
    let (range, line) = text.split_once(" ").context("no line behind the range")?;
    let (first, end) = range.split_once("..").context("no range")?;
    for number in number_of::<u64>(first)?..number_of::<u64>(end)? {
        add_line(alloc, bytes, line, number)?;
    }
    Ok(())
}

/// Adds a text so many times, without line feeds: `8 ab`.
fn add_repeated(bytes: &mut Vec<u8>, text: &str) -> Result<()> {
    let (times, text) = text.split_once(" ").context("no text behind the number")?;
    for _ in 0..number_of::<u32>(times)? {
        bytes.extend_from_slice(text.as_bytes())?;
    }
    Ok(())
}

/// Adds bytes that are given by hexadecimal digits: `80 0a`.
fn add_digits(bytes: &mut Vec<u8>, text: &str) -> Result<()> {
    for word in text.split_whitespace() {
        let mut byte = 0u8;
        for digit in word.chars() {
            let digit = digit.to_digit(16).context("no hexadecimal digits")?;
            byte = byte.wrapping_mul(16) | digit as u8;
        }
        bytes.push(byte)?;
    }
    Ok(())
}

/// The first lines of a text, at most so many.
fn first_lines(text: &[u8], lines: usize) -> &[u8] {
    let mut end = 0usize;
    for line in text.split_inclusive(|byte| *byte == b'\n').take(lines) {
        end = end.saturating_add(line.len());
    }
    text.get(..end).unwrap_or(text)
}

/// Adds what an earlier row was given or wrote: `input of NAME`, `output of NAME`, or `first 3 of NAME`, its first lines.
fn add_earlier(bytes: &mut Vec<u8>, rows: &[Row<'_>], text: &str) -> Result<()> {
    let (what, name) = text.split_once(" of ").context("no row is named")?;
    let row = rows
        .iter()
        .rfind(|row| row.name == name)
        .context("no earlier row has this name")?;
    let all = match what {
        "input" => row.input.as_slice(),
        _ => row.output.as_slice(),
    };
    let lines = match what.split_once(" ") {
        Some(("first", lines)) => number_of(lines)?,
        None if what == "input" || what == "output" => usize::MAX,
        _ => bail!("neither the input, nor the output or its first lines"),
    };
    bytes.extend_from_slice(first_lines(all, lines))?;
    Ok(())
}

/// The bytes that a line `|..` stands for, of which this is what is behind the `|`.
fn bytes_of(alloc: Global, rows: &[Row<'_>], line: &str) -> Result<Vec<u8>> {
    let mut bytes = Vec::new(alloc);
    let (mark, text) = line.split_once(" ").unwrap_or((line, ""));
    match mark {
        "" => {
            bytes.extend_from_slice(text.as_bytes())?;
            bytes.push(b'\n')?;
        }
        "-" => bytes.extend_from_slice(text.as_bytes())?,
        "x" => add_digits(&mut bytes, text)?,
        "*" => add_lines(alloc, &mut bytes, text)?,
        "+" => add_repeated(&mut bytes, text)?,
        "<" => add_earlier(&mut bytes, rows, text)?,
        _ => bail!("no blank behind `|`, or an unknown mark"),
    }
    Ok(bytes)
}

/// Adds bytes to the input or the output of the row under way.
fn add_bytes(rows: &mut Vec<Row<'_>>, bytes: &[u8]) -> Result<()> {
    let row = rows.last_mut().context("no row has begun")?;
    if !row.in_output {
        row.input.extend_from_slice(bytes)?;
        return Ok(());
    }
    let want = row.wants.last_mut().context("no output has begun")?;
    want.text.extend_from_slice(bytes)?;
    Ok(())
}

/// Begins what is wanted of the output, with this text.
fn add_want(alloc: Global, row: &mut Row<'_>, form: Form, text: &str) -> Result<()> {
    let text = text.as_bytes().to_vec(alloc)?;
    row.in_output = true;
    row.wants.push(Want { form, text })?;
    Ok(())
}

/// Takes a line `KEY: VALUE` into the row.
fn take_value<'t>(alloc: Global, row: &mut Row<'t>, key: &str, value: &'t str) -> Result<()> {
    match key {
        "words" => row.words = Some(value),
        "program" => row.program = value,
        "source fails" => row.source_fails = numbers_of(alloc, value)?,
        "sink fails" => row.sink_fails = numbers_of(alloc, value)?,
        "notes fail" => row.notes_fail = numbers_of(alloc, value)?,
        "pieces" => row.pieces = numbers_of(alloc, value)?,
        "clock" => row.clock = numbers_of(alloc, value)?,
        "gate" => row.gate = numbers_of(alloc, value)?,
        "times" => row.times = number_of(value)?,
        "status" => row.status = number_of(value)?,
        "note" => row.note = Some(value),
        "left" => row.left = Some(number_of(value)?),
        "next reading" => row.next_reading = Some(number_of(value)?),
        "gate fails" => row.gate_fails = true,
        "log cut" => cut_log(&mut row.input, number_of(value)?),
        _ => return take_block(alloc, row, key, value),
    }
    Ok(())
}

/// Takes a line of the row that begins bytes, or has a number in its key.
fn take_block(alloc: Global, row: &mut Row<'_>, key: &str, value: &str) -> Result<()> {
    match key {
        "input" => row.in_output = false,
        "output" => add_want(alloc, row, Form::Text, "")?,
        "output has" => add_want(alloc, row, Form::Lines, "")?,
        "output ends" => add_want(alloc, row, Form::End, "")?,
        "legal log" => add_want(alloc, row, Form::LegalLog, "")?,
        "verdict" => {
            row.status = status_of(value);
            add_want(alloc, row, Form::Text, &format!(in alloc; "{value}\n")?)?;
        }
        _ => return take_numbered(alloc, row, key, value),
    }
    Ok(())
}

/// Takes a line `KEY NUMBER: VALUE` into the row.
fn take_numbered(alloc: Global, row: &mut Row<'_>, key: &str, value: &str) -> Result<()> {
    let (key, number) = key.split_once(" ").context("an unknown key")?;
    match key {
        "log" => replace_line(alloc, &mut row.input, number_of(number)?, value)?,
        "count" => add_want(alloc, row, Form::Count(number_of(number)?), value)?,
        _ => bail!("an unknown key"),
    }
    Ok(())
}

/// Begins a row, which is a variation of the last one that is none where its line begins with `--`.
fn begin_row<'t>(
    alloc: Global,
    rows: &mut Vec<Row<'t>>,
    base: &mut usize,
    line: &'t str,
) -> Result<()> {
    let (mark, name) = line.split_once(" ").context("no name")?;
    if mark == "==" {
        *base = rows.len();
        rows.push(Row::named(alloc, name))?;
        return Ok(());
    }
    let mut row = rows.get(*base).context("no row has begun")?.clone()?;
    row.name = name;
    row.wants.clear();
    row.in_output = false;
    rows.push(row)?;
    Ok(())
}

/// Whether a line begins a row.
pub fn begins_row(line: &str) -> bool {
    line.starts_with("==") || line.starts_with("--")
}

/// Takes a line of the table, which has no line feed, into the rows; `base` is the place of the last one that is no
/// variation.
pub fn take_line<'t>(
    alloc: Global,
    rows: &mut Vec<Row<'t>>,
    base: &mut usize,
    line: &'t str,
) -> Result<()> {
    if begins_row(line) {
        return begin_row(alloc, rows, base, line);
    }
    if line.is_empty() || line.starts_with("#") {
        return Ok(());
    }
    if let Some(text) = line.strip_prefix("|") {
        let bytes = bytes_of(alloc, rows, text)?;
        return add_bytes(rows, &bytes);
    }
    let (key, value) = line.split_once(":").context("no colon behind a key")?;
    let row = rows.last_mut().context("no row has begun")?;
    take_value(alloc, row, key, value.trim())
}
