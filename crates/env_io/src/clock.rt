ghost use Rattle.std.specs.Prelude.{◌≡◌, ◌+◌, ◌-◌, ◌*◌, ◌^◌, ◌≤◌, ℕ, length, min, slice_index, IfSome, Option, Some};
ghost use Rattle.env_io.specs.Readings.{BeginsWith, list_readings, after_next, no_step, step_readings};

use std::marker::Model;

/// A clock whose readings are microseconds since some start of its own.
pub trait Clock {
    /// The reading k calls from now, from 0, where the clock tells it.
    ghost readings: { Self → ℕ → Option ℕ };

    /// The time now, in microseconds. It cannot fail, and no clause says that it does not go back.
    fn now(&mut self) -> u64
        ensures first { IfSome (readings self.old 0) (λ reading. result ≡ reading) }
        ensures later { (k : ℕ) → readings self.new k ≡ readings self.old (k + 1) };
}

/// Gives the readings of a vector in order, in microseconds. It gives them as they stand, so it may go back.
///
/// Past the end it repeats the last reading, or 0 where there is none. In clauses it is the list of the readings still
/// to come, whose last one stays.
#[derive(Drop)]
pub struct ListClock {
    readings: Vec<u64>,
    at: usize,
}

impl Model for ListClock {
    ghost use Rattle.std.specs.Prelude.{◌-◌, ◌≤◌, ℕ, List, drop, vec_len};

    ghost Value = { List ℕ };

    ghost view = { λ c. drop c.at c.readings.items };

    ghost invariant = { λ c. c.at ≤ vec_len c.readings - 1 };
}

impl ListClock {
    pub fn new(readings: Vec<u64>) -> ListClock
        ensures ahead { result ≡ readings.items }

        // What this list says of the readings.
        ensures first { BeginsWith (list_readings result) readings.items }
        ensures past_end { (k : ℕ) → length readings.items ≤ k → list_readings result k ≡ Some (slice_index readings.items (length readings.items - 1)) }
    {
        ListClock { readings, at: 0 }
    }
}

impl Clock for ListClock {
    ghost readings = { list_readings };

    // It says more than the trait does, of which each clause follows.
    fn now(&mut self) -> u64
        ensures reading { result ≡ slice_index self.old 0 }
        ensures ahead { self.new ≡ after_next self.old }
    {
        let reading = self.readings.get(self.at).copied().unwrap_or(0);
        if self.at + 1 < self.readings.len() {
            self.at += 1;
        }
        reading
    }
}

/// Gives readings that are a fixed step apart, in microseconds: the k-th, from 1, is `k * step`.
///
/// Once that is more than `u64::MAX` the readings stay at `u64::MAX`. In clauses it is the step, and the reading given
/// last, which is 0 at first.
#[derive(Drop)]
pub struct StepClock {
    step: u64,
    last: u64,
}

impl Model for StepClock {
    ghost use Rattle.env_io.specs.Readings.{Steps};

    ghost Value = { Steps };

    ghost view = { λ c. record { step = c.step; last = c.last } };
}

impl StepClock {
    /// The step is in microseconds. With a step of 0 each reading is 0.
    pub fn new(step: u64) -> StepClock
        ensures start { result ≡ no_step step }

        // What this start says of the readings.
        ensures readings { (k : ℕ) → step_readings result k ≡ Some (min ((k + 1) * step) (2 ^ 64 - 1)) }
    {
        StepClock { step, last: 0 }
    }
}

impl Clock for StepClock {
    ghost readings = { step_readings };

    // It says more than the trait does, of which each clause follows.
    fn now(&mut self) -> u64
        ensures reading { result ≡ min (self.old.last + self.old.step) (2 ^ 64 - 1) }
        ensures counted { self.new ≡ record self.old { last = result } }
    {
        self.last = self.last.saturating_add(self.step);
        self.last
    }
}
