//! Workers and the driver, as functions over a desk: one seat of an environment that many threads share. A call of a desk
//! that takes the turn makes at most one entry, and gives the turn back. What is proved here holds of every kind of desk.
#![tactic(auto)]

mod assigned;
mod desk;
mod driver;
mod items;
mod patience;
mod steps;
mod waits;
mod worker;

pub use assigned::Assigned;
pub use desk::Desk;
pub use driver::drive;
pub use worker::{Served, serve, work};
