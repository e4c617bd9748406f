//! What follows from the notions of the past that the pool of threads needs: what each kind of entry does to keys and
//! heads, seats and cells, room, jobs, blockers, and the choice of the next source. All of it is lemmas, public to every
//! crate above. It has no code.
#![tactic(auto)]
