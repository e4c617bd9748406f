use task_base::{Entry, Place};

/// What is wrong with a line that is none of a log at its place. A later one comes only where no earlier one does.
#[derive(Clone, Copy, Debug)]
pub enum Mistake {
    /// There is no such line: the total is missing, which is this.
    NoTotal { total: Place },
    /// The text begins as JSON does.
    Json,
    /// It is a whole line of a log, but for its line feed.
    NoFeed,
    /// It has no line feed, and is no whole line.
    CutOff,
    /// It has nothing but blanks.
    Blank,
    /// It begins with `#`.
    Comment,
    /// It ends in CR LF.
    CarriageReturn,
    /// It is the first line of version 2 but for its letters and blanks.
    Head,
    /// It is the first line, and names another version, or none.
    Version,
    /// It is a total, but the text does not begin with the first line of version 2.
    NoHead,
    /// It is a total, and lines stand after it.
    AfterTotal,
    /// It is a total, which should be this.
    Total { total: Place },
    /// It is the line of this entry but for its spelling, and says another place.
    Place { entry: Entry },
    /// It is the line of this entry but for its spelling.
    Spelling { entry: Entry },
    /// It would be that with small letters.
    Letters { entry: Entry },
    /// None of these.
    Unknown,
}
