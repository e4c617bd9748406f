ghost use Rattle.std.specs.Prelude.{◌≡◌, ◌≤◌, IfSome};
ghost use Rattle.nested_loop.specs.NestWords.{number_in, id_of, bound_of};

use crate::limits::MOST_LOOP_TASKS;
use line_words::number_from;

/// The number of 64 bits that a word writes, if it lies between these two.
pub(crate) fn number_in(low: u64, high: u64, word: &[u8]) -> Option<u64>
    ensures value { result ≡ number_in low high word.now }
    ensures fits { IfSome result (λ number. number ≤ high) }
{
    number_from(low, high, word).ok()
}

/// The number of a task or queue.
pub(crate) fn id_of(word: &[u8]) -> Option<u32>
    ensures { result ≡ id_of word.now }
{
    let number = number_in(0, u64::from(u32::MAX), word)?;
    Some(number as u32)
}

/// How many tasks a loop runs at most.
pub(crate) fn bound_of(word: &[u8]) -> Option<u32>
    ensures { result ≡ bound_of word.now }
{
    let number = number_in(1, u64::from(MOST_LOOP_TASKS), word)?;
    Some(number as u32)
}

/// A priority class.
pub(crate) fn class_of(word: &[u8]) -> Option<u8>
    ensures { result ≡ number_in 0 7 word.now }
{
    let number = number_in(0, 7, word)?;
    Some(number as u8)
}
