//! The limits of a script and of its text (this project's own). A script beyond one of them is refused.

/// How many bytes the text of a script has at most.
pub const MOST_BYTES: usize = 33_554_432;
/// How many worker seats a script has at most.
pub const MOST_WORKERS: u32 = 64;
/// How many runners a script declares at most.
pub const MOST_RUNNERS: usize = 4_096;
/// How many main queues a script declares at most.
pub const MOST_QUEUES: usize = 256;
/// How many tasks a script declares at most.
pub const MOST_TASKS: usize = 65_536;
/// How many jobs a script declares at most.
pub const MOST_JOBS: usize = 256;
/// How many items the jobs of a script have at most, together.
pub const MOST_ITEMS: usize = 262_144;
/// How many steps the tasks and jobs of a script have at most, together.
pub const MOST_STEPS: usize = 262_144;
/// How many readings of the clock a script asks for at most.
pub const MOST_TICKS: usize = 262_144;
/// How many entries the history of a script has at most.
pub const MOST_EVENTS: usize = 1_048_576;
/// How many microseconds a delay, the threshold and the step of a clock have at most.
pub const MOST_MICROSECONDS: u64 = 1_000_000_000_000;
/// The last moment that a tick reads, in microseconds.
pub const LAST_MOMENT: u64 = 4_611_686_018_427_387_904;
