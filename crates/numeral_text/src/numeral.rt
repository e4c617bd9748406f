ghost use Rattle.std.specs.Prelude.{◌≡◌, ◌+◌, ◌*◌, ◌^◌, ◌<◌, ◌≤◌, IfSome, IsTrue, MatchOption};
ghost use Rattle.std.specs.Char.{digit_value, is_ascii_digit};
ghost use Rattle.std.specs.Str.{all_ascii_digits};
ghost use Rattle.numeral_text.specs.Numeral.{is_numeral, value_of};

/// Whether a word is decimal digits, at least one, without a sign. Zeros may stand in front.
pub fn is_numeral(word: &[u8]) -> bool
    ensures { result ≡ is_numeral word.now }
{
    are_digits(word) && !word.is_empty()
}

/// The number that a numeral writes, and none where it has more than 64 bits. The time that it takes is linear in the
/// numeral's length.
pub fn value_of(numeral: &[u8]) -> Option<u64>
    requires { IsTrue (is_numeral numeral.now) }
    ensures { result ≡ value_of numeral.now }
{
    let mut number = 0;
    for digit in numeral {
        number = with_digit(number, *digit)?;
    }
    Some(number)
}

// The number with one more digit behind it, and none where that has more than 64 bits.
fn with_digit(number: u64, digit: u8) -> Option<u64>
    requires { IsTrue (is_ascii_digit digit) }
    ensures value { MatchOption result (2 ^ 64 ≤ number * 10 + digit_value digit) (λ more. more ≡ number * 10 + digit_value digit) }
    ensures fits { IfSome result (λ more. more < 2 ^ 64) }
{
    number.checked_mul(10)?.checked_add(u64::from(digit - b'0'))
}

fn are_digits(word: &[u8]) -> bool
    ensures { result ≡ all_ascii_digits word.now }
{
    word.iter().all(|byte| byte.is_ascii_digit())
}
