//! The limits of a nest script (this project's own). A script beyond one of them is refused. It has at most as many main
//! queues as any script, `task_base::MOST_QUEUES`.

/// How many tasks a nest script declares at most.
pub const MOST_NEST_TASKS: usize = 1_024;
/// How many steps the tasks of a nest script have at most, together.
pub const MOST_NEST_STEPS: usize = 16_384;
/// How many actions a nest script has at most.
pub const MOST_NEST_ACTIONS: usize = 16_384;
/// How many tasks a loop may be told to run at most.
pub const MOST_LOOP_TASKS: u32 = 16_384;
