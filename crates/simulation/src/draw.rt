ghost use Rattle.std.specs.Prelude.{◌≡◌, ◌≤◌, ◌<◌, ◌*◌, ◌/◌, ◌^◌, [], length, Some, None, IfOk};
ghost use Rattle.std.specs.List.{range_with_len};
ghost use Rattle.rand_pcg.specs.Pcg.{pcg32};
ghost use Rattle.task_base.specs.declared.limits.TheConstants.{MOST_WORKERS};
ghost use Rattle.simulation.specs.Draw.{Draws, IsFair, all_lots, draw_of_seed, drivers_lots, everybody, left_of, lot_of};

use crate::lots::Lots;
use rand_core::utils::NextWord;
use rand_pcg::Pcg32;
use std::alloc::{AllocError, Global};
use std::marker::Model;
use task_base::{MOST_WORKERS, SeatNo};

/// The seats that are left to be drawn, and what draws them.
///
/// Contracts see the generator, the lots, and who is left.
#[derive(Drop)]
pub struct Draw {
    generator: Pcg32,
    lots: Lots,
    driver: bool,
    workers: Vec<SeatNo>,
}

impl Model for Draw {
    ghost use Rattle.std.specs.Prelude.{◌≤◌, length};
    ghost use Rattle.task_base.specs.declared.limits.TheConstants.{MOST_WORKERS};
    ghost use Rattle.simulation.specs.Draw.{Drawing, IsFair};

    ghost Value = { Drawing };

    ghost view = { λ d. record { generator = d.generator; lots = d.lots; driver = d.driver; workers = d.workers.items } };

    ghost invariant = { λ d. IsFair d.lots × (length d.workers.items ≤ MOST_WORKERS) };
}

impl Draw {
    /// A generator that begins at this seed, with nobody left. The error is that memory ran out.
    pub fn new(alloc: Global, seed: u64, lots: Lots) -> Result<Draw, AllocError>
        requires { IsFair lots }
        ensures { IfOk result (λ draw. draw ≡ draw_of_seed seed lots) }
    {
        let workers = Vec::with_capacity(alloc, MOST_WORKERS as usize)?;
        Ok(Draw {
            generator: Pcg32::new(seed, 0),
            lots,
            driver: false,
            workers,
        })
    }

    /// From now on the driver and that many workers are left. The error is that memory ran out.
    pub fn refill(&mut self, workers: u32) -> Result<(), AllocError>
        requires { workers ≤ MOST_WORKERS }
        ensures { IfOk result (λ _. self.new ≡ everybody workers self.old) }
    {
        self.driver = true;
        self.workers.clear();
        add_seats(&mut self.workers, workers)
    }

    /// Draws one of those that are left, who is left no more. None where nobody is.
    pub fn next(&mut self) -> Option<SeatNo>
        ensures nobody { left_of self.old ≡ 0 → (result ≡ None) × (self.new ≡ self.old) }
        ensures somebody { 1 ≤ left_of self.old → Draws self.old self.new result }
    {
        if self.left() == 0 {
            return None;
        }
        let lot = self.lot();
        let drivers = self.lots_of_driver();
        if lot < drivers {
            self.driver = false;
            return Some(0);
        }
        let place = (lot - drivers) / self.lots.worker;
        Some(self.workers.remove(place as usize))
    }

    /// How many are left.
    fn left(&self) -> usize
        ensures { result ≡ left_of self.now }
    {
        usize::from(self.driver) + self.workers.len()
    }

    /// The lots of the driver, if it is left.
    fn lots_of_driver(&self) -> u32
        ensures { result ≡ drivers_lots self.now }
    {
        if self.driver { self.lots.driver } else { 0 }
    }

    /// Draws a lot of those who are left.
    fn lot(&mut self) -> u32
        ensures lot { result ≡ lot_of self.old }
        ensures few { 1 ≤ all_lots self.old → result < all_lots self.old }
        ensures goes_on { self.new ≡ record self.old { generator = (pcg32 self.old.generator).1 } }
    {
        let all = self.lots_of_driver() + self.workers.len() as u32 * self.lots.worker;
        scaled(self.generator.next_word(), all)
    }
}

/// A word, scaled from all words to that many numbers.
fn scaled(word: u32, many: u32) -> u32
    ensures scaled { result ≡ word * many / 2 ^ 32 }
    ensures few { 1 ≤ many → result < many }
{
    (u64::from(word) * u64::from(many) / (1 << 32)) as u32
}

/// Adds the seats of that many workers to none.
fn add_seats(seats: &mut Vec<SeatNo>, workers: u32) -> Result<(), AllocError>
    requires none { seats.old.items ≡ [] }
    requires few { workers ≤ MOST_WORKERS }
    ensures seats { IfOk result (λ _. seats.new.items ≡ range_with_len 1 workers) }
    ensures few { length seats.new.items ≤ workers }
{
    for seat in 1..workers + 1 {
        seats.push(seat)?;
    }
    Ok(())
}
