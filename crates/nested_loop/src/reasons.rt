//! Why a line of a nest script is bad, by number (this project's own rules).

/// The line has no form that there is, or a number is outside its range.
pub(crate) const BAD_LINE: u8 = 1;
/// The id of a declaration is not the number of earlier declarations of its sort.
pub(crate) const OUT_OF_ORDER: u8 = 2;
/// A task or queue is used that was not declared earlier.
pub(crate) const UNDECLARED: u8 = 3;
/// A task that the line posts is posted earlier, or before on the same line.
pub(crate) const POSTED_TWICE: u8 = 4;
/// A declaration behind an action.
pub(crate) const LATE: u8 = 5;
/// With this line a limit is passed.
pub(crate) const TOO_MANY: u8 = 6;
