//! Lemmas on lists, counts, least elements and tests that several crates need, and the words that they speak of. It has
//! no code.
#![tactic(auto)]
