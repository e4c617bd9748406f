//! How much work of the pool may run at once in one thread group, with blocking scopes that raise the limit.
//! Contracts see a group as what each seat runs in it, with its limits, its threshold and its moment.
#![tactic(auto)]

mod counts;
mod group;
mod work;

pub use group::Group;
pub use work::{OpenScope, Work};
