ghost use Rattle.std.specs.Prelude.{◌≡◌, ◌++◌, ◌<◌, ◌^◌, if◌then◌else◌, ℕ, OnOk, decimal, slice_index};
ghost use Rattle.std.specs.Str.Parse.{digits_value};
ghost use Rattle.natural_number.specs.Decimal.{decimal_of, digit_bytes, last_digits};
ghost use Rattle.std.specs.Int.Digits.{digits_of};
ghost use Rattle.natural_number.specs.Limbs.{AreLimbs, number_of};

use itoa::Buffer;
use std::alloc::AllocError;

/// Adds the decimal digits of the number of the limbs, without zeros in front, and 0 for zero. The error is out of memory.
pub(crate) fn add_number(text: &mut Vec<u8>, limbs: &[u32]) -> Result<(), AllocError>
    requires { AreLimbs limbs.now }
    ensures { OnOk result (text.new.items ≡ text.old.items ++ decimal_of (number_of limbs.now)) }
{
    let mut begun = false;
    for i in (0..limbs.len()).rev() {
        let limb = limbs[i];
        add_limb(text, limb, begun)?;
        begun |= limb > 0;
    }
    if !begun {
        text.push(b'0')?;
    }
    Ok(())
}

// Adds the nine digits of a limb, where there is a number in front of them, and otherwise its digits without zeros in front.
fn add_limb(text: &mut Vec<u8>, limb: u32, behind: bool) -> Result<(), AllocError>
    ensures { OnOk result (text.new.items ≡ text.old.items ++ digit_bytes (if behind then last_digits 10 9 limb else digits_of 10 limb)) }
{
    if behind {
        add_last_digits(text, limb, 9)
    } else if limb > 0 {
        text.extend_from_slice(Buffer::new().format(limb).as_bytes())
    } else {
        Ok(())
    }
}

// Adds so many of the last decimal digits of a number, zeros in front too.
#[tactic(auto, unfolding(crate::specs::Decimal::last_digits))]
fn add_last_digits(text: &mut Vec<u8>, number: u32, count: u8) -> Result<(), AllocError>
    ensures { OnOk result (text.new.items ≡ text.old.items ++ digit_bytes (last_digits 10 count number)) }
{
    if count == 0 {
        return Ok(());
    }
    add_last_digits(text, number / 10, count - 1)?;
    text.push(b'0' + (number % 10) as u8)?;
    Ok(())
}

/// The decimal text of a number is read as that number, has no zero in front but in `0`, and below 2^64 is what the library writes.
#[tactic(auto, using(crate::proofs::Texts::decimal_of_reads, crate::proofs::Texts::decimal_of_front, crate::proofs::Texts::decimal_of_short))]
pub fn decimal_text_is_of_its_number()
    ensures reads { (number : ℕ) → digits_value 10 (decimal_of number) ≡ number }
    ensures front { (number : ℕ) → 0 < number → 48 < slice_index (decimal_of number) 0 }
    ensures short { (number : ℕ) → number < 2 ^ 64 → decimal_of number ≡ decimal number }
{}
