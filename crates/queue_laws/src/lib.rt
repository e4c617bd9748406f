//! What follows from the notions of the past that the main queues need: what each kind of entry does to the orders that
//! are drawn, to lanes and their fronts, and to the choice among the open fronts. All of it is lemmas, public to every
//! crate above. It has no code.
#![tactic(auto)]
