//! The sequences of a pool: for each the tasks that wait, in order, and the cell that one task after the other is
//! given. Contracts see a list of sequences, each a list of tasks and what its cell holds, or that it is out.
#![tactic(auto)]

mod lines;
mod links;
mod sequences;

pub use sequences::Sequences;
