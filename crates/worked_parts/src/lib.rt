//! Tests of the parts that stand alone, in a crate of their own, so that no part is proved twice for them: what no clause
//! of theirs can say, and what is compared with plain lists.
#![tactic(auto)]

#[cfg(test)]
mod tests;
