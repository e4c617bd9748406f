//! Tests of the run of a script on threads as a call, with bodies and gates of their own.
#![tactic(auto)]

#[cfg(test)]
mod crew;
#[cfg(test)]
mod pauses;
