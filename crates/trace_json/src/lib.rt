//! A log as trace events: a span for each task that ran, and one for each item of a job, at the seat that did it. Chromium's
//! trace viewer (`chrome://tracing`) and Perfetto show them.
//!
//! What was written is a prefix of the trace's text, and the whole of it where nothing failed. Two functions have empty
//! bodies: their contracts say what the trace of every legal log is like. Contracts see a log as the list of its entries.
#![tactic(auto)]

mod event;
mod fault;
mod spans;
mod trace;
mod writer;

pub use event::{EventName, EventPhase, TraceEvent};
pub use fault::TraceFault;
pub use spans::{events_go_by_turns, sequences_show_singly};
pub use writer::write_trace;
