use shutdown_phase::StillBlocked;
use std::alloc::AllocError;
use task_base::{NotYet, RunnerId};
use thiserror::Error;

/// Why a call made no entry.
#[derive(Debug, Drop, Error)]
pub enum Unmade {
    /// The call is not one that its seat may make now, or names what is not declared. Nothing was changed.
    #[error("this call may not be made now")]
    Misuse,
    /// No task is left to be handed out, or as many entries were made as can be counted. Nothing was changed.
    #[error("there is no room left")]
    Full,
    /// There is nothing that the seat may take now.
    #[error("there is nothing to take")]
    Nothing,
    /// Shutdown is done: there will be nothing to take any more.
    #[error("shutdown is done")]
    Over,
    /// What the driver asks for has not come: so many seats run what is waited for, and whether a seat could take more of it.
    #[error("not yet: {} still run", .0.running)]
    NotYet(NotYet),
    /// So many pieces of work still block shutdown.
    #[error("{0}")]
    Blocked(StillBlocked),
}

/// Why an environment was not opened.
#[derive(Debug, Drop, Error)]
pub enum OpenError {
    /// Out of memory; nothing is left made.
    #[error("out of memory")]
    OutOfMemory(AllocError),
    /// The runner is bound to the last seat, the guest's, which takes nothing: its tasks would never start.
    #[error("runner {runner} is bound to the last seat, which is the guest's")]
    GuestRunner { runner: RunnerId },
}
