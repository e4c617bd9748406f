/// What a wide script has besides tasks, runners and their posts.
#[derive(Clone, Copy, Debug, PartialEq, Eq)]
pub struct Parts {
    /// Three jobs, each with its start and its end.
    pub jobs: bool,
    /// Three main queues, with their tasks and all that changes them.
    pub main: bool,
    /// Delays of posts, and ticks.
    pub delays: bool,
    /// Blocking scopes.
    pub scopes: bool,
    /// A shutdown, in three scripts of four, and posts after it.
    pub shutdown: bool,
}
