//! Why a line is bad, by number: where several reasons hold, the least one counts.

/// The line is no reply.
pub(crate) const BAD_LINE: u8 = 1;
/// The task, the runner or the queue was not declared, or the reply was not declared before the task.
pub(crate) const UNDECLARED: u8 = 2;
/// The script posts the reply, or an earlier line makes it the reply of a task.
pub(crate) const POSTED_TWICE: u8 = 3;
/// The reply opens a blocking scope, and goes where none may block.
pub(crate) const BAD_BLOCK: u8 = 4;
/// With this line the script has more steps or more entries than the limits allow.
pub(crate) const TOO_MANY: u8 = 5;
