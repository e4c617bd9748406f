//! Bodies of tasks, which do a task's steps on a cell that they are lent, and assignments, which own a body and a cell
//! until the last step is done; and passes, by which a seat holds an item of a job. Contracts see a body as all its steps
//! and those still to do.
#![tactic(auto)]

mod act;
mod assignment;
mod body;
mod kinds;
mod once_body;
mod pass;
mod script_body;
mod taken;
mod work;

pub use act::Act;
pub use assignment::Assignment;
pub use body::TaskBody;
pub use kinds::Body;
pub use once_body::OnceBody;
pub use pass::JobPass;
pub use script_body::ScriptBody;
pub use taken::Taken;
pub use work::Work;
