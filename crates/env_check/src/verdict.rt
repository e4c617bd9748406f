/// The verdict on a log of a script.
#[derive(Clone, Copy, Debug, PartialEq, Eq)]
pub enum Verdict {
    /// Each entry may come after those before it, and nothing is left to be done.
    Legal,
    /// It is no log of the script.
    Illegal {
        /// The least place whose entry may not come; the log's length where each may, but something is left to be done.
        place: u32,
    },
}
