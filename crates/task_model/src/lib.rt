//! The notions of the past: what a script and the entries of a history so far say of tasks, seats, jobs, main queues and
//! shutdown. Each definition filters the past, counts in it, or takes a least element of it, and each comes with what
//! one more entry does to it. It has no code.
#![tactic(auto)]
