//! The words that scripts and logs write values as, and the way back from a word to the value that it names. Each value is
//! tried by its word, since a search in a list of them takes longer.
#![tactic(auto)]

mod words;

pub use words::{
    behaviour_named, behaviour_word, fence_named, fence_word, policy_named, policy_word,
    priority_named, priority_word, reply_named, reply_word, scope_named, scope_word, vote_named,
    vote_word,
};
