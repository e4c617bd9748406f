//! A log as trace events with all that the log and its script tell: names for the process and its seats, a span for each task, item
//! and blocking scope with what it found and left, each post with a flow to its take, marks for all else, and how much work of the
//! pool runs and waits. The Trace Event Format is that of Chromium's trace viewer and of Perfetto.
//!
//! Contracts see a log as the list of its entries, and a trace's text as the compact JSON text of its data.
#![tactic(auto)]

mod args;
mod course;
mod event;
mod shown;
mod text;

pub use event::{Event, What};
pub use text::full_text;
