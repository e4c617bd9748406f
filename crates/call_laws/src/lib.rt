//! What the calls of an environment rest on, whether a script is done or a process goes on: what the pool's answers on jobs say, when
//! all is quiet, and which entries of the driver the rules ask nothing more of. All of it is lemmas, public to every crate above. It
//! has no code.
#![tactic(auto)]
