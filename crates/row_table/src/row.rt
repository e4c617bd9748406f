ghost use Rattle.std.specs.Prelude.{◌<◌};

use std::alloc::Global;

/// What is wanted of the output.
#[derive(Clone, Copy)]
pub enum Form {
    /// It is this text.
    Text,
    /// It has these lines, in this order.
    Lines,
    /// It ends in these lines.
    End,
    /// It has so many lines of this form.
    Count(usize),
    /// It is the log of a whole run of the input, as `check` judges it, and has these lines, in this order.
    LegalLog,
}

/// A form, and its text or its lines.
#[derive(Clone, Drop)]
pub struct Want {
    pub form: Form,
    pub text: Vec<u8>,
}

/// A worked row: what the call is given, what is wanted of it, and what it wrote.
#[derive(Clone, Drop)]
pub struct Row<'t> {
    pub name: &'t str,
    /// The name of the program, the first word of its command line.
    pub program: &'t str,
    /// The words behind it, parted by blanks; none: the command line is empty.
    pub words: Option<&'t str>,
    pub input: Vec<u8>,
    /// The numbers from 1 of the calls of the source, the sink and the notes that fail.
    pub source_fails: Vec<u32>,
    pub sink_fails: Vec<u32>,
    pub notes_fail: Vec<u32>,
    /// The most bytes that a call of the source gives, and one of the sink takes.
    pub pieces: Vec<u32>,
    /// The readings of the clock.
    pub clock: Vec<u64>,
    /// The task that the gate holds up, the one that it waits for, and how often it looks; empty: it is open.
    pub gate: Vec<u32>,
    /// How often the row is played.
    pub times: u32,
    pub status: u8,
    pub note: Option<&'t str>,
    /// No want: there is no output.
    pub wants: Vec<Want>,
    /// How many bytes the source is to have left.
    pub left: Option<usize>,
    /// What the clock is to read next.
    pub next_reading: Option<u64>,
    /// Whether the gate is to have failed.
    pub gate_fails: bool,
    /// Whether the next lines of bytes are of the output.
    pub in_output: bool,
    /// What it wrote when it was played last.
    pub output: Vec<u8>,
}

impl<'t> Row<'t> {
    /// A row of which nothing but its name is known.
    pub fn named(alloc: Global, name: &'t str) -> Row<'t> {
        Row {
            name,
            program: "taskenv",
            words: None,
            input: Vec::new(alloc),
            source_fails: Vec::new(alloc),
            sink_fails: Vec::new(alloc),
            notes_fail: Vec::new(alloc),
            pieces: Vec::new(alloc),
            clock: Vec::new(alloc),
            gate: Vec::new(alloc),
            times: 1,
            status: 0,
            note: None,
            wants: Vec::new(alloc),
            left: None,
            next_reading: None,
            gate_fails: false,
            in_output: false,
            output: Vec::new(alloc),
        }
    }

    /// The most bytes that a call of the source gives, at place 0, or that one of the sink takes, at place 1.
    pub fn piece(&self, place: usize) -> u32
        ensures { 0 < result }
    {
        self.pieces.get(place).copied().unwrap_or(u32::MAX).max(1)
    }
}
