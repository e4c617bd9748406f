//! Why bytes are no nest script, in one sentence: the first bad line, its place, what stands there, and what may.
#![tactic(auto)]

mod earlier;
mod lint;
mod objections;
mod posts;

pub use lint::lint_nest;
