/// A language whose lines have places.
#[derive(Clone, Copy)]
pub enum Language {
    /// Scripts.
    Script,
    /// What stands after `%%` in the input of `reply`.
    Replies,
    /// Nest scripts.
    Nest,
}

/// A sort of what lines declare. Each sort has numbers of its own.
#[derive(Clone, Copy)]
pub enum Thing {
    Runner,
    Queue,
    Task,
    Job,
}

/// What a place of a line takes.
#[derive(Clone, Copy)]
pub enum Expected {
    /// The command of a line.
    Command,
    /// The name of a step.
    Step,
    /// Steps with `;` between them, or none.
    Steps,
    /// A number from `low` to `high`.
    Number { low: u64, high: u64 },
    /// The number of a thing, of 32 bits.
    Id { of: Thing },
    /// The kind of a runner.
    Kind,
    Priority,
    /// A behaviour at shutdown.
    Behaviour,
    /// `mayblock`, or no word.
    MayBlock,
    Policy,
    /// Where a fence is put.
    Fence,
    Vote,
    /// A kind of blocking scope.
    Scope,
    /// What a reply is posted to: `runner` or `queue`.
    Home,
    /// Whether a nested loop may run a task: `nestable` or `deferred`.
    Nestable,
    /// No word.
    End,
}

/// A place of a line, counted from 1, what it takes, and why what stands there can't: one of the reasons 2 to 5 of a script.
#[derive(Clone, Copy)]
pub struct Found {
    pub place: usize,
    pub expected: Expected,
    pub reason: u8,
}

/// How many words a line takes, its command among them.
#[derive(Clone, Copy)]
pub struct Length {
    pub least: usize,
    pub most: usize,
}
