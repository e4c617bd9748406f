ghost use Rattle.std.specs.Prelude.{◌≡◌, ◌≤◌, ◌<◌, IfOk};
ghost use Rattle.wide_script.specs.Draws.{drawing, generator_at, number_at, number_of_task, number_of_turn, numbers_from, one_of};

use crate::parts::Parts;
use rand_core::utils::NextWord;
use rand_pcg::Pcg32;
use std::alloc::{AllocError, Global};
use std::marker::Model;

/// The numbers that a script is drawn from, and what it is to have.
#[derive(Drop)]
pub(crate) struct Draws {
    numbers: Vec<u32>,
    pub(crate) size: u32,
    pub(crate) parts: Parts,
}

impl Model for Draws {
    ghost use Rattle.wide_script.specs.Draws.{Drawing};

    ghost Value = { Drawing };

    ghost view = { λ d. record { numbers = d.numbers.items; size = d.size; parts = d.parts } };
}

impl Draws {
    /// Those of a number, for that many tasks.
    pub(crate) fn new(
        alloc: Global,
        number: u64,
        size: u32,
        parts: Parts,
    ) -> Result<Draws, AllocError>
        requires { size ≤ 8192 }
        ensures { IfOk result (λ draws. draws ≡ drawing number size parts) }
    {
        Ok(Draws {
            numbers: numbers_from(alloc, number, 16 + 2 * size)?,
            size,
            parts,
        })
    }

    /// The number at a place.
    pub(crate) fn number(&self, place: u32) -> u32
        ensures { result ≡ number_at self.now place }
    {
        self.at(place as usize)
    }

    /// The number of a task.
    pub(crate) fn of_task(&self, task: u32) -> u32
        ensures { result ≡ number_of_task self.now task }
    {
        self.at(16 + task as usize)
    }

    /// The number of a turn of the driver.
    pub(crate) fn of_turn(&self, turn: u32) -> u32
        ensures { result ≡ number_of_turn self.now turn }
    {
        self.at(16 + self.size as usize + turn as usize)
    }

    fn at(&self, place: usize) -> u32
        ensures { result ≡ number_at self.now place }
    {
        match self.numbers.get(place) {
            Some(number) => *number,
            None => 0,
        }
    }
}

/// That many numbers, by a generator that begins at this seed.
fn numbers_from(alloc: Global, seed: u64, count: u32) -> Result<Vec<u32>, AllocError>
    ensures { IfOk result (λ numbers. numbers.items ≡ numbers_from (generator_at seed) count) }
{
    let mut generator = Pcg32::new(seed, 0);
    let mut numbers = Vec::with_capacity(alloc, count as usize)?;
    for _ in 0..count {
        numbers.push(generator.next_word())?;
    }
    Ok(numbers)
}

/// One of that many, by the bits of the number from this one on.
pub(crate) fn one_of(count: u32, x: u32, bit: u32) -> u32
    requires some { 1 ≤ count }
    requires there { bit < 32 }
    ensures one { result ≡ one_of count x bit }
    ensures below { result < count }
{
    (x >> bit) % count
}
