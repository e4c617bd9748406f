use line_places::{Expected, Language, Length, Thing};

/// What has a limit over all lines.
#[derive(Clone, Copy)]
pub enum Limited {
    Runners,
    Queues,
    Tasks,
    Jobs,
    /// The items of all jobs.
    Items,
    /// The steps of all tasks and jobs.
    Steps,
    /// The readings of the clock.
    Ticks,
    /// The entries of a run, counted ahead.
    Entries,
    /// The actions of a nest script.
    Actions,
}

/// What is wrong at a place of a line. Lines count from 1; where one is missing here, no such line was found.
#[derive(Clone, Copy)]
pub enum Complaint {
    /// The word has a byte above 127.
    NotAscii,
    /// The word can't stand where this is expected, for one of the reasons 2 to 5 of a script.
    Unexpected {
        language: Language,
        expected: Expected,
        reason: u8,
        /// What the line takes, where it has no steps.
        length: Option<Length>,
    },
    /// The next number of such a thing is another one.
    OutOfOrder {
        of: Thing,
        next: u64,
    },
    /// Only so many such things are declared.
    Undeclared {
        of: Thing,
        count: u64,
    },
    /// The task is not declared before that one.
    NotBefore {
        task: u32,
    },
    /// The queue has only so many voters.
    NoVoter {
        voters: u64,
    },
    /// There are only so many worker seats.
    NoSeat {
        workers: u64,
    },
    /// The task is posted by an earlier line, or before on this one.
    PostedTwice {
        task: u32,
        line: Option<u32>,
    },
    /// The script before `%%` posts the task.
    PostedByScript {
        task: u32,
    },
    /// A declaration, after an action; or of configuration, after a declaration.
    Late {
        action: bool,
        line: Option<u32>,
    },
    /// A scope is opened while one is open.
    OpensSecond,
    /// A scope is closed while none is open.
    ClosesNone,
    /// A scope is open at the end of the task.
    StaysOpen,
    /// The task opens a blocking scope, and is posted to this runner without `mayblock`, or to a main queue.
    MayNotBlock {
        task: u32,
        runner: Option<u32>,
    },
    /// A step of a job does not compute.
    NoJobStep,
    /// The job is started by an earlier line.
    StartedBefore {
        job: u32,
        line: Option<u32>,
    },
    /// The job is not started by an earlier line.
    NotStarted {
        job: u32,
    },
    /// The command stands on an earlier line, and may stand once.
    StandsBefore {
        line: Option<u32>,
    },
    /// With the line there are more of these than may be.
    TooMany {
        of: Limited,
        most: u64,
    },
    /// The line breaks the rule of this number, and at no place more than at another.
    Breaks {
        reason: u8,
    },
}
