//! The outside of the environment: where bytes come from and go to, the clock, and a gate before each task.
//!
//! A source is seen as the bytes that it still has to give, a sink as the bytes that it has taken, a clock as the
//! readings still to come, each of them where the outside tells it, and a source or a sink also as a count of failures.
//!
//! Of each there are some on the streams and the clock of std, and some in memory. A `ListClock` gives the readings of a
//! vector and a `StepClock` readings a fixed step apart: both tell all of them. A `RealClock` tells none.
#![tactic(auto)]

mod clock;
mod failed;
mod failing;
mod gate;
mod piece;
mod real;
mod sink;
mod source;
mod store;

pub use clock::{Clock, ListClock, StepClock};
pub use failed::Failed;
pub use gate::{Gate, HoldGate, OpenGate};
pub use piece::{PieceSink, PieceSource};
pub use real::{RealClock, StdSink, StdSource};
pub use sink::{CountSink, MemSink, Sink, put_all};
pub use source::{MemSource, Source, SureSource};
