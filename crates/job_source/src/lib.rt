//! The items of one job, which several workers share item by item, and the work that gives an item its value.
//! Contracts see a job as its numbers, with the item that each worker inside holds.
#![tactic(auto)]

mod source;
mod worker;

pub use source::{JobSource, MOST_INSIDE};
pub use worker::{JobWorker, StepsWorker};
