//! What each seat of a pool saw, where nobody kept one order of it all, and what an order of it is. The definitions are for specs and
//! proofs; a program has from here what an event is, and of which kind of plan an order is.
#![tactic(auto)]

mod event;
mod plan_kind;

pub use event::{Event, Span};
pub use plan_kind::PlanKind;
