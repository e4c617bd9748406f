//! The count of what blocks shutdown as one atomic word, which many threads count in without a turn or a lock. A token
//! begins and ends items, and shutdown is done only where its own step finds the start bit alone. Contracts see a token
//! by what its own steps found (`specs/Tokens.antt`), and the rule of the word says what each value of it means
//! (`specs/Word.antt`).
#![tactic(auto)]

mod blocker_word;
mod live_items;
mod rule;
mod tokens;
mod view;

pub use blocker_word::BlockerWord;
pub use live_items::no_item_is_live_after_done;
pub use tokens::{Control, Done, Idle, Item, Live, Started};
