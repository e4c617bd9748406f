/// Which pool work may start before shutdown (this project's own rule). From the start of shutdown on it has
/// no effect.
#[derive(Clone, Copy, Debug, PartialEq, Eq)]
pub enum Policy {
    /// Nothing is held back. So it is at opening.
    All,
    /// Best-effort work is held back.
    Foreground,
    /// All work of the pool is held back.
    Nothing,
}
