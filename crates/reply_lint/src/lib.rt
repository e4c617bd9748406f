//! Why lines are no replies of a script, in one sentence: the first bad line, its place, what stands there, and what may.
#![tactic(auto)]

mod earlier;
mod lint;
mod objections;
mod said;

pub use lint::lint_replies;
