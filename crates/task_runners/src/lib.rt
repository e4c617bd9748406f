//! The declared runners, as the pool asks for them: which sequence a task belongs to, which seat may take it, what is
//! asked for it, and which group does it. Contracts see the table as a script of runners and a background limit alone.
#![tactic(auto)]

mod runner_table;

pub use runner_table::RunnerTable;
