/// How many lots a seat has at most.
pub const MOST_LOTS: u32 = 1024;

/// How many lots each seat has in a draw: 1 to 1,024. With more for the driver much is posted before it is taken; with more for each
/// worker work is taken as it comes.
#[derive(Clone, Copy, Debug, PartialEq, Eq)]
pub struct Lots {
    /// The lots of the driver.
    pub driver: u32,
    /// The lots of each worker.
    pub worker: u32,
}
