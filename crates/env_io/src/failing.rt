ghost use Rattle.std.specs.Prelude.{◌≡◌, ◌≤◌, ◌==◌};
ghost use Rattle.std.specs.List.{list_any};
ghost use Rattle.std.specs.Bool.{OnFalse, OnTrue};
ghost use Rattle.env_io.specs.Bytes.{Rose};
ghost use Rattle.env_io.specs.Failing.{plan_of, fails_next, after_call};

use std::marker::Model;

// Counts the calls of a source or a sink, and says which of them are to fail.
#[derive(Drop)]
pub(crate) struct Failing {
    numbers: Vec<u32>,
    calls: u64,
    faults: u64,
}

impl Model for Failing {
    ghost use Rattle.env_io.specs.Failing.{FailurePlan};

    ghost Value = { FailurePlan };

    ghost view = { λ f. record { fails = f.numbers.items; calls = f.calls; faults = f.faults } };
}

impl Failing {
    pub(crate) fn new(numbers: Vec<u32>) -> Failing
        ensures { result ≡ plan_of numbers.items }
    {
        Failing {
            numbers,
            calls: 0,
            faults: 0,
        }
    }

    // Whether the next call is to fail. It counts the call, and the failure.
    pub(crate) fn next(&mut self) -> bool
        ensures answer { result ≡ fails_next self.old }
        ensures counted { self.new ≡ after_call self.old }
        ensures rose { OnTrue result (Rose self.old.faults self.new.faults) }
        ensures steady { OnFalse result (self.new.faults ≡ self.old.faults) }
        ensures faults { self.old.faults ≤ self.new.faults }
    {
        self.calls = self.calls.saturating_add(1);
        let fails = is_listed(&self.numbers, self.calls);
        if fails {
            self.faults = self.faults.saturating_add(1);
        }
        fails
    }
}

fn is_listed(numbers: &[u32], call: u64) -> bool
    ensures { result ≡ list_any (λ number. number == call) numbers.now }
{
    numbers.iter().any(|number| u64::from(*number) == call)
}
