ghost use Rattle.std.specs.Prelude.{◌≡◌, ◌+◌, ◌-◌, ◌*◌, ◌^◌, ◌<◌, ◌≤◌, ◌↔◌, All, IsTrue, length, slice_get, slice_index, Some};
ghost use Rattle.natural_number.specs.Limbs.{AreLimbs, number_of};

/// The base of which limbs are digits: a limb is nine decimal digits.
pub(crate) const BASE: u32 = 1_000_000_000;

/// Adds the number of other limbs, of which there are no more, where the limbs have room for the sum.
pub(crate) fn add_limbs(limbs: &mut [u32], other: &[u32])
    requires limbs { AreLimbs limbs.old }
    requires other { AreLimbs other.now }
    requires no_more { length other.now ≤ length limbs.old }
    requires room { number_of limbs.old + number_of other.now < BASE ^ length limbs.old }
    ensures value { number_of limbs.new ≡ number_of limbs.old + number_of other.now }
    ensures limbs { AreLimbs limbs.new }
{
    let mut carry = 0;
    for (i, limb) in limbs.iter_mut().enumerate() {
        let theirs = limb_at(other, i);
        let sum = Carried::of(*limb + theirs + carry);
        *limb = sum.limb;
        carry = sum.carry;
    }
}

// What a sum of two limbs and a carry leaves in its place, and carries on to the next.
#[derive(Drop)]
struct Carried {
    limb: u32,
    carry: u32,
}

impl Carried {
    fn of(sum: u32) -> Self
        requires { sum < 2 * BASE }
        ensures value { result.limb + BASE * result.carry ≡ sum }
        ensures limb { result.limb < BASE }
        ensures carry { result.carry ≤ 1 }
    {
        if sum < BASE {
            Carried {
                limb: sum,
                carry: 0,
            }
        } else {
            Carried {
                limb: sum - BASE,
                carry: 1,
            }
        }
    }
}

// The limb at a place, and 0 where there is none.
fn limb_at(limbs: &[u32], place: usize) -> u32
    ensures value { result ≡ slice_index limbs.now place }
    ensures limb { AreLimbs limbs.now → result < BASE }
{
    limbs.get(place).copied().unwrap_or(0)
}

/// Whether each limb is zero.
pub(crate) fn are_zeros(limbs: &[u32]) -> bool
    ensures { IsTrue result ↔ All (λ limb. limb ≡ 0) limbs.now }
{
    limbs.iter().all(|limb| *limb == 0)
}

/// Takes zeros off the top, which leaves the number.
pub(crate) fn trim(limbs: &mut Vec<u32>)
    requires { AreLimbs limbs.old.items }
    ensures value { number_of limbs.new.items ≡ number_of limbs.old.items }
    ensures limbs { AreLimbs limbs.new.items }
{
    while ends_in_zero(limbs) {
        limbs.pop();
    }
}

// Whether the limb on top is a zero.
fn ends_in_zero(limbs: &[u32]) -> bool
    ensures { IsTrue result ↔ (slice_get limbs.now (length limbs.now - 1) ≡ Some 0) }
{
    match limbs.last() {
        Some(limb) => *limb == 0,
        None => false,
    }
}
