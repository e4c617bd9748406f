//! Why bytes are no script, in one sentence: the first bad line, the first place of it for which its reason holds, what stands
//! there, and what may.
#![tactic(auto)]

mod earlier;
mod limits;
mod lines;
mod lint;
mod posting;
mod scopes;
mod steps;
mod words;

pub use lint::lint_script;
