//! The judge of open logs: whether a log is one that an environment of a script's open plan may write. It makes the call of each
//! entry on a live core, to the log's end or to the first entry that is not allowed. Also which scripts are those of an open plan.
#![tactic(auto)]

mod check;
mod follow;
mod plan;

pub use check::{check_open, check_open_prefix};
pub use follow::{Against, Stop, follow_all, follow_entry};
pub use plan::{BadPlan, PlanFault, core_of, open_plan};
