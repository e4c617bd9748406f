/// What a log adds up to.
#[derive(Clone, Copy, Debug, PartialEq, Eq)]
pub struct Summary {
    /// How many tasks ended, of the pool and of the main queues.
    pub tasks: u32,
    /// How many items of jobs are done.
    pub items: u32,
    /// The sum of what the cells of all sequences and main queues hold at the end, modulo 2^64.
    pub cells: u64,
    /// The sum of the values of all items, modulo 2^64.
    pub sums: u64,
}
