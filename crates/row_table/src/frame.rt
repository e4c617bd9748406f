//! How a script and the text of a log are joined for `check`, and which of its lines a verdict speaks of.
use std::alloc::{AllocError, Global};

/// The line that parts the script from the log.
const MARK: &[u8] = b"%%\n";

/// The input of `check` for a log of this script.
pub fn framed(alloc: Global, script: &[u8], log: &[u8]) -> Result<Vec<u8>, AllocError> {
    let mut input = script.to_vec(alloc)?;
    if input.last().is_some_and(|byte| *byte != b'\n') {
        input.push(b'\n')?;
    }
    input.extend_from_slice(MARK)?;
    input.extend_from_slice(log)?;
    Ok(input)
}

/// Where the line of this number from 1 begins in the log of such an input; its end where there is no such line.
fn start_of_line(input: &[u8], number: usize) -> usize {
    let (mut start, mut line, mut is_log) = (0usize, 1, false);
    for text in input.split_inclusive(|byte| *byte == b'\n') {
        if is_log && line >= number {
            return start;
        }
        if is_log {
            line += 1;
        }
        is_log |= text == MARK;
        start = start.saturating_add(text.len());
    }
    start
}

/// Leaves only so many lines of the log.
pub fn cut_log(input: &mut Vec<u8>, lines: usize) {
    input.truncate(start_of_line(input, lines.saturating_add(1)));
}

/// Puts another line in place of that of this number of the log, or behind a log that has no such line.
pub fn replace_line(
    alloc: Global,
    input: &mut Vec<u8>,
    number: usize,
    text: &str,
) -> Result<(), AllocError> {
    let end = start_of_line(input, number.saturating_add(1));
    let rest = input.get(end..).unwrap_or(b"").to_vec(alloc)?;
    input.truncate(start_of_line(input, number));
    input.extend_from_slice(text.as_bytes())?;
    input.push(b'\n')?;
    input.extend_from_slice(&rest)
}

/// The status under which `check` writes this verdict.
pub fn status_of(verdict: &str) -> u8 {
    u8::from(verdict != "legal")
}
