//! What the word says that bodies share.
use crate::bodies::Word;
use std::process::Abort;
use std::sync::Arc;
use std::sync::atomic::Ordering;

/// So many hold a share of the word.
pub fn assert_shares(rt: &impl Abort, word: &Word, wanted: usize) {
    assert_eq!(rt; Arc::strong_count(word), wanted);
}

/// The word was raised so often.
pub fn assert_raised(rt: &impl Abort, word: &Word, wanted: u64) {
    assert_eq!(rt; word.load(Ordering::SeqCst), wanted);
}
