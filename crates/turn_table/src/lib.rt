//! One history under a turn that many seats take: whoever holds the turn has the value that keeps the history, adds
//! one entry to it or none, and gives it back. Anybody may look how long the history is, and whether a shutdown stands
//! in it, without the turn. Contracts see a seat as what it knows of the history (`specs/Seats.antt`), and the rule of
//! the table below says what holds of the turn (`specs/Turn.antt`).
#![tactic(auto)]

mod holding;
mod rule;
mod seat;
mod turnstile;
mod view;

pub use hist_model::Chronicle;
pub use holding::Holding;
pub use seat::Seat;
pub use turnstile::Turnstile;
