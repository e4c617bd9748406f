use task_base::{Behaviour, RunnerId};

/// How an accepted task was posted.
#[derive(Clone, Copy, Debug, PartialEq, Eq)]
pub struct Posting {
    /// The runner that it was posted to.
    pub runner: RunnerId,
    /// What shutdown does with it, its delay taken into account.
    pub effective: Behaviour,
}
