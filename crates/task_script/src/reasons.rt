//! The reasons of a line that is bad behind the earlier lines, by their numbers (this project's own rules).

/// The id of a declaration is not the number of earlier declarations of its sort.
pub(crate) const OUT_OF_ORDER: u8 = 6;
/// A task, runner, queue, job, voter or worker seat is used that was not declared earlier.
pub(crate) const UNDECLARED: u8 = 7;
/// A task that the line posts is posted earlier, or before on the same line.
pub(crate) const POSTED_TWICE: u8 = 8;
/// A configuration line behind a declaration or an action, or a declaration behind an action.
pub(crate) const DECLARATION_LATE: u8 = 9;
/// The scopes of a task do not open and close in turn, or a task that opens one is posted where it must not block.
pub(crate) const BAD_BLOCK: u8 = 10;
/// A job has a step that does not compute, is started twice, or is joined or cancelled before it is started.
pub(crate) const JOB_USE: u8 = 11;
/// `shutdown` stands earlier.
pub(crate) const SHUTDOWN_TWICE: u8 = 12;
/// A configuration line of the same command stands earlier.
pub(crate) const CONFIG_TWICE: u8 = 13;
/// With this line a limit is passed.
pub(crate) const TOO_MANY: u8 = 14;
