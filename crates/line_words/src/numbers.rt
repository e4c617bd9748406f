ghost use Rattle.std.specs.Prelude.{◌≡◌, ◌&&◌, ◌≤◌, IfOk, nat_le};
ghost use Rattle.script_model.specs.Places.{number_from};
ghost use Rattle.line_words.specs.Numerals.{has_form, within};

use crate::reason::Reason;
use numeral_text::{is_numeral, value_of};

/// The number that a word writes, if it lies between these two: one to 20 digits, also with zeros in front.
pub fn number_from(low: u64, high: u64, word: &[u8]) -> Result<u64, Reason>
    ensures value { result ≡ number_from low high word.now }
    ensures fits { IfOk result (λ number. number ≤ high) }
{
    if has_form(word) {
        within(low, high, value_of(word))
    } else {
        Err(Reason::BAD_NUMBER)
    }
}

/// The number, if it lies between these two; one that 64 bits do not hold does not.
fn within(low: u64, high: u64, number: Option<u64>) -> Result<u64, Reason>
    ensures value { result ≡ within low high number }
    ensures fits { IfOk result (λ number. number ≤ high) }
{
    match number {
        Some(number) if is_between(low, high, number) => Ok(number),
        _ => Err(Reason::OUT_OF_RANGE),
    }
}

fn is_between(low: u64, high: u64, number: u64) -> bool
    ensures { result ≡ (nat_le low number && nat_le number high) }
{
    (low..=high).contains(&number)
}

/// Whether a word has the form of a number.
fn has_form(word: &[u8]) -> bool
    ensures { result ≡ has_form word.now }
{
    is_numeral(word) && word.len() <= 20
}
