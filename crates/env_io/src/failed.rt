/// The outside failed once, at one call. What failed, and why, is not told.
#[derive(Clone, Copy, Debug, PartialEq, Eq)]
pub struct Failed;
