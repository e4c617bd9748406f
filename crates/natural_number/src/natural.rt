ghost use Rattle.std.specs.Prelude.{◌≡◌, ◌+◌, ◌++◌, ◌↔◌, IfOk, IsTrue, OnErr, OnOk};
ghost use Rattle.natural_number.specs.Decimal.{decimal_of};

use crate::decimal::add_number;
use crate::limbs::{BASE, add_limbs, are_zeros, trim};
use std::alloc::{AllocError, Global};
use std::marker::Model;

/// A natural number, as long as it needs to be.
#[derive(Drop)]
pub struct Natural {
    // Digits in the base of limbs, the lowest first. Zeros may stand on top.
    limbs: Vec<u32>,
}

impl Model for Natural {
    ghost use Rattle.std.specs.Prelude.{ℕ};
    ghost use Rattle.natural_number.specs.Limbs.{AreLimbs, number_of};

    ghost Value = { ℕ };

    ghost view = { λ n. number_of n.limbs.items };

    ghost invariant = { λ n. AreLimbs n.limbs.items };
}

impl Natural {
    /// Zero, which takes no memory.
    pub fn zero(alloc: Global) -> Self
        ensures { result ≡ 0 }
    {
        Natural {
            limbs: Vec::new(alloc),
        }
    }

    /// The number. The error is out of memory.
    pub fn new(alloc: Global, number: u64) -> Result<Self, AllocError>
        ensures { IfOk result (λ made. made ≡ number) }
    {
        let mut limbs = Vec::new(alloc);
        let mut rest = number;
        while rest > 0 {
            limbs.push((rest % u64::from(BASE)) as u32)?;
            rest /= u64::from(BASE);
        }
        Ok(Natural { limbs })
    }

    /// The same number once more. The error is out of memory.
    pub fn copy(&self, alloc: Global) -> Result<Self, AllocError>
        ensures { IfOk result (λ made. made ≡ self.now) }
    {
        let limbs = Vec::from_slice(alloc, self.limbs.as_slice())?;
        Ok(Natural { limbs })
    }

    /// Whether it is zero.
    pub fn is_zero(&self) -> bool
        ensures { IsTrue result ↔ (self.now ≡ 0) }
    {
        are_zeros(self.limbs.as_slice())
    }

    /// Adds the other number. Out of memory, it stays as it was.
    pub fn add(&mut self, other: &Natural) -> Result<(), AllocError>
        ensures ok { OnOk result (self.new ≡ self.old + other.now) }
        ensures err { OnErr result (self.new ≡ self.old) }
    {
        let len = self.limbs.len().max(other.limbs.len()) + 1;
        self.limbs.resize(len, 0)?;
        add_limbs(self.limbs.as_mut_slice(), other.limbs.as_slice());
        trim(&mut self.limbs);
        Ok(())
    }

    /// Adds the decimal digits of the number to a text, without zeros in front, and 0 for zero. After an error, which is out of
    /// memory, the text may have only the first of them.
    pub fn add_decimal(&self, text: &mut Vec<u8>) -> Result<(), AllocError>
        ensures { OnOk result (text.new.items ≡ text.old.items ++ decimal_of self.now) }
    {
        add_number(text, self.limbs.as_slice())
    }
}
