//! Plays a row through the program's call.
use env_app::run_words;
use env_io::{
    Clock, HoldGate, ListClock, MemSink, MemSource, PieceSink, PieceSource, Sink, Source,
};
use row_table::{
    Form, Row, ShortSink, ShortSource, Want, framed, unless_counts, unless_ends, unless_has,
    unless_same,
};
use std::alloc::{AllocError, Global};
use std::rt;
use std::sync::Wait;
use std::thread::Threads;

/// How many bytes each sink keeps.
const ROOM: u32 = 4_194_304;

/// What a call answered and wrote, and what it left.
#[derive(Drop)]
struct Told {
    status: u8,
    output: Vec<u8>,
    notes: MemSink,
    left: usize,
    next_reading: u64,
    gate_fails: bool,
}

fn failing_sink(alloc: Global, fails: &[u32]) -> Result<MemSink, AllocError> {
    MemSink::new(alloc, Vec::from_slice(alloc, fails)?, ROOM)
}

/// The gate of a row; no task has the number of the one that an open gate holds up.
fn gate_of(numbers: &[u32]) -> HoldGate {
    match numbers {
        [held, until, turns] => HoldGate::new(*held, *until, u64::from(*turns)),
        _ => HoldGate::new(u32::MAX, u32::MAX, 0),
    }
}

/// The words of a row's command line.
fn words_of(alloc: Global, row: &Row<'_>) -> Result<Vec<String>, AllocError> {
    let mut words = Vec::new(alloc);
    let Some(list) = row.words else {
        return Ok(words);
    };
    words.push(String::from_str(alloc, row.program)?)?;
    for word in list.split_whitespace() {
        words.push(String::from_str(alloc, word)?)?;
    }
    Ok(words)
}

/// How many bytes a source has left.
fn left_in<S: Source>(source: &mut S) -> usize {
    let mut left = 0usize;
    for _ in 0..u32::MAX {
        match source.take(&mut [0; 4096]) {
            Ok(0) => return left,
            Ok(count) => left = left.saturating_add(count),
            Err(_) => {}
        }
    }
    left
}

/// What the program's call does by this row over a source and a sink. The sink has the output.
fn told_over<S: Source, K: Sink, R: AllocGlobal + Threads + Wait + Sync + rt::Clock>(
    rt: &R,
    row: &Row<'_>,
    source: &mut S,
    sink: &mut K,
) -> Result<Told, AllocError> {
    let alloc = rt.alloc();
    let mut notes = failing_sink(alloc, &row.notes_fail)?;
    let mut clock = ListClock::new(row.clock.clone()?);
    let gate = gate_of(&row.gate);
    let status = run_words(
        rt,
        alloc,
        &words_of(alloc, row)?,
        source,
        sink,
        &mut notes,
        &mut clock,
        &gate,
    );
    Ok(Told {
        status,
        output: Vec::new(alloc),
        notes,
        left: left_in(source),
        next_reading: clock.now(),
        gate_fails: gate.failed(),
    })
}

/// What the program's call does by a row that has pieces and no failures of the input and the output.
fn told_in_pieces<R: AllocGlobal + Threads + Wait + Sync + rt::Clock>(
    rt: &R,
    row: &Row<'_>,
) -> Result<Told, AllocError> {
    let mut source = PieceSource::new(row.input.clone()?, row.piece(0));
    let mut sink = PieceSink::new(rt.alloc(), row.piece(1), ROOM)?;
    let mut told = told_over(rt, row, &mut source, &mut sink)?;
    told.output.extend_from_slice(sink.bytes())?;
    Ok(told)
}

/// What the program's call does by a row whose input and output may fail.
fn told_with_failures<R: AllocGlobal + Threads + Wait + Sync + rt::Clock>(
    rt: &R,
    row: &Row<'_>,
) -> Result<Told, AllocError> {
    let source = MemSource::new(row.input.clone()?, row.source_fails.clone()?);
    let mut source = ShortSource::new(source, row.piece(0));
    let mut sink = ShortSink::new(failing_sink(rt.alloc(), &row.sink_fails)?, row.piece(1));
    let mut told = told_over(rt, row, &mut source, &mut sink)?;
    told.output.extend_from_slice(sink.sink.bytes())?;
    Ok(told)
}

/// What the program's call does by this row.
fn told_by<R: AllocGlobal + Threads + Wait + Sync + rt::Clock>(
    rt: &R,
    row: &Row<'_>,
) -> Result<Told, AllocError> {
    let fails = !row.source_fails.is_empty() || !row.sink_fails.is_empty();
    if row.pieces.is_empty() || fails {
        told_with_failures(rt, row)
    } else {
        told_in_pieces(rt, row)
    }
}

/// The complaint where `check` does not find that this is the log of a whole run of this script.
fn unless_legal<R: AllocGlobal + Threads + Wait + Sync + rt::Clock>(
    rt: &R,
    script: &[u8],
    log: &[u8],
) -> Result<Option<String>, AllocError> {
    let mut row = Row::named(rt.alloc(), "");
    row.words = Some("check");
    row.input = framed(rt.alloc(), script, log)?;
    unless_same(rt.alloc(), b"legal\n", &told_by(rt, &row)?.output)
}

/// What of the output is not as this wants it.
fn unless_wanted<R: AllocGlobal + Threads + Wait + Sync + rt::Clock>(
    rt: &R,
    input: &[u8],
    want: &Want,
    output: &[u8],
) -> Result<Option<String>, AllocError> {
    let (alloc, text) = (rt.alloc(), want.text.as_slice());
    match want.form {
        Form::Text => unless_same(alloc, text, output),
        Form::Lines => unless_has(alloc, text, output),
        Form::End => unless_ends(alloc, text, output),
        Form::Count(count) => unless_counts(alloc, count, text, output),
        Form::LegalLog => match unless_has(alloc, text, output)? {
            None => unless_legal(rt, input, output),
            complaint => Ok(complaint),
        },
    }
}

/// What of the status and the note is not as the row wants it.
fn unless_ended(alloc: Global, row: &Row<'_>, told: &Told) -> Result<Option<String>, AllocError> {
    let (status, note) = (row.status, row.note);
    let wanted = match note {
        Some(note) => format!(in alloc; "status {status}, {note}\n")?,
        None => format!(in alloc; "status {status}, ")?,
    };
    let (status, note) = (
        told.status,
        String::from_utf8_lossy(alloc, told.notes.bytes())?,
    );
    let got = format!(in alloc; "status {status}, {note}")?;
    unless_same(alloc, wanted.as_bytes(), got.as_bytes())
}

/// What the call left that is not as the row wants it.
fn unless_left(alloc: Global, row: &Row<'_>, told: &Told) -> Result<Option<String>, AllocError> {
    let (left, reading) = (told.left, told.next_reading);
    let (wanted_left, wanted_reading) = (
        row.left.unwrap_or(left),
        row.next_reading.unwrap_or(reading),
    );
    let wanted = format!(in alloc;
        "left {wanted_left}, next reading {wanted_reading}, gate fails {}",
        row.gate_fails
    )?;
    let got = format!(in alloc;
        "left {left}, next reading {reading}, gate fails {}",
        told.gate_fails
    )?;
    unless_same(alloc, wanted.as_bytes(), got.as_bytes())
}

/// What is not as the row wants it.
fn complaint_about<R: AllocGlobal + Threads + Wait + Sync + rt::Clock>(
    rt: &R,
    row: &Row<'_>,
    told: &Told,
) -> Result<Option<String>, AllocError> {
    let (alloc, output) = (rt.alloc(), told.output.as_slice());
    if let Some(complaint) = unless_ended(alloc, row, told)? {
        return Ok(Some(complaint));
    }
    if let Some(complaint) = unless_left(alloc, row, told)? {
        return Ok(Some(complaint));
    }
    if row.wants.is_empty() {
        return unless_same(alloc, b"", output);
    }
    for want in &row.wants {
        if let Some(complaint) = unless_wanted(rt, &row.input, want, output)? {
            return Ok(Some(complaint));
        }
    }
    Ok(None)
}

/// Plays a row as often as it says, and tells what the first time is not as it wants it. It keeps what it wrote last.
pub fn play<R: AllocGlobal + Threads + Wait + Sync + rt::Clock>(
    rt: &R,
    row: &mut Row<'_>,
) -> Result<Option<String>, AllocError> {
    for _ in 0..row.times {
        let told = told_by(rt, row)?;
        let complaint = complaint_about(rt, row, &told)?;
        row.output = told.output;
        if complaint.is_some() {
            return Ok(complaint);
        }
    }
    Ok(None)
}
