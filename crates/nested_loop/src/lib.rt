//! Nested run loops: a main task may run a loop inside itself, and a task that is not nestable waits for the outermost
//! loop. A nest script is read from its text, and a log of events is written as one.
//!
//! Contracts see a nest as its `NestPlan`: the classes of its queues, its tasks and its actions as plain lists. Bytes
//! that are a nest by the grammar of `NestGrammar` give that nest, and all others the first bad line and its first reason.
#![tactic(auto)]

mod deferred;
mod event;
mod fault;
mod frame;
mod laws;
mod limits;
mod line;
mod machine;
mod nest;
mod numbers;
mod posts;
mod read;
mod reader;
mod reasons;
mod run;
mod script;
mod steps;
mod text;
mod waiting;
mod words;
mod write;

pub use event::Event;
pub use fault::NestFault;
pub use laws::{
    deferred_tasks_start_in_order, deferred_tasks_start_outermost, nest_logs_are_unique,
    starts_and_ends_are_nested, tasks_of_a_nest_start_once,
};
pub use limits::{MOST_LOOP_TASKS, MOST_NEST_ACTIONS, MOST_NEST_STEPS, MOST_NEST_TASKS};
pub use nest::{Nest, NestAction, NestStep, NestTask};
pub use read::read_nest;
pub use run::run_nest;
pub use write::write_nest;
