//! One thread's environment: the object that a browser would hold. It owns the bodies of the tasks, the pool and the
//! history. Contracts see it as the script that is run and the entries so far, which are legal at each moment.
#![tactic(auto)]

mod agenda;
mod drawer;
mod env;
mod laws;
mod ledger;

pub use env::Env;
pub use laws::who_waits_may_enter_nothing;
