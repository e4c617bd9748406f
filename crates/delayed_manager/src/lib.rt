//! Delayed tasks that are not ripe yet, each with the moment at which it ripens. Contracts see them as a list in the
//! order in which they ripen, with the room that was taken for them.
#![tactic(auto)]

mod delayed;
mod ripening;

pub use delayed::Delayed;
pub use ripening::Ripening;
