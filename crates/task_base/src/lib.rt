//! The plain data of the task environment: lists with room, scripts, log entries, cells, policies, and the faults
//! that a run may end with.
#![tactic(auto)]

mod cell;
mod entry;
mod fault;
mod limits;
mod policy;
mod rows;
mod script;
mod source;
mod step;

pub use cell::Cell;
pub use entry::{Entry, JobReply, Kind};
pub use fault::{Fault, add_broken_rule};
pub use limits::{
    LAST_MOMENT, MOST_BYTES, MOST_EVENTS, MOST_ITEMS, MOST_JOBS, MOST_MICROSECONDS, MOST_QUEUES,
    MOST_RUNNERS, MOST_STEPS, MOST_TASKS, MOST_TICKS, MOST_WORKERS,
};
pub use policy::Policy;
pub use rows::Rows;
pub use script::{
    Action, FenceAt, Job, JobId, Lane, MainQueue, Place, QueueId, Runner, RunnerId, RunnerKind,
    Script, SeatNo, SeqId, Task, TaskId,
};
pub use source::{Key, NotYet, TaskSource};
pub use step::{Scope, Step, apply, is_act};
pub use task_traits::{Behaviour, Phase, Priority, Traits};
