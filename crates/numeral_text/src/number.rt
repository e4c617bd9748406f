ghost use Rattle.std.specs.Prelude.{◌≡◌, ◌<◌, ◌≤◌, ◌^◌, IfSome, decimal, length};
ghost use Rattle.numeral_text.specs.Number.{number_of, sum_of};

/// The number of at most 64 bits whose text the word is, if there is one. The text of a number is its decimal digits, without a
/// sign and without zeros in front: logs have no other.
pub fn number_64(word: &[u8]) -> Option<u64>
    ensures same { result ≡ number_of 64 word.now }
    ensures text { IfSome result (λ number. word.now ≡ decimal number) }
{
    match word {
        [] | [b'0', _, ..] => None,
        _ => sum_of(word),
    }
}

// The number of at most 64 bits that digits write, if there is one. There may be zeros in front, and no digits write 0.
fn sum_of(digits: &[u8]) -> Option<u64>
    ensures { result ≡ sum_of digits.now }
{
    if digits.len() < 20 {
        sum_of_few(digits)
    } else {
        sum_of_many(digits)
    }
}

// The number that at most 19 digits write, if they are digits. It is below 10^19, and so below 2^64.
fn sum_of_few(digits: &[u8]) -> Option<u64>
    requires { length digits.now ≤ 19 }
    ensures { result ≡ sum_of digits.now }
{
    let mut sum: u64 = 0;
    for digit in digits {
        if !digit.is_ascii_digit() {
            return None;
        }
        sum = sum * 10 + u64::from(*digit - b'0');
    }
    Some(sum)
}

// The number of at most 64 bits that any number of digits write, if there is one.
fn sum_of_many(digits: &[u8]) -> Option<u64>
    ensures { result ≡ sum_of digits.now }
{
    let mut sum: u64 = 0;
    for digit in digits {
        if !digit.is_ascii_digit() {
            return None;
        }
        sum = sum.checked_mul(10)?.checked_add(u64::from(*digit - b'0'))?;
    }
    Some(sum)
}

/// The number of at most 32 bits whose text the word is, if there is one.
#[tactic(auto, unfolding(crate::specs::Number::number_of))]
pub fn number_32(word: &[u8]) -> Option<u32>
    ensures same { result ≡ number_of 32 word.now }
    ensures text { IfSome result (λ number. word.now ≡ decimal number) }
    ensures fits { IfSome result (λ number. number < 2 ^ 32) }
{
    u32::try_from(number_64(word)?).ok()
}

/// The number of at most 8 bits whose text the word is, if there is one.
#[tactic(auto, unfolding(crate::specs::Number::number_of))]
pub fn number_8(word: &[u8]) -> Option<u8>
    ensures same { result ≡ number_of 8 word.now }
    ensures text { IfSome result (λ number. word.now ≡ decimal number) }
    ensures fits { IfSome result (λ number. number < 2 ^ 8) }
{
    u8::try_from(number_64(word)?).ok()
}
