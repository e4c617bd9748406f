ghost use Rattle.std.specs.Prelude.{◌≡◌, ◌+◌, ◌<◌, ◌≤◌, ◌++◌, ◌↔◌, [], ℕ, List, min, length, take, drop, IfOk, IfSome, Option, Some, OnOk, OnErr, IsErr, IsTrue};
ghost use Rattle.env_io.specs.Bytes.{Gives, Rose};
ghost use Rattle.env_io.specs.Failing.{plan_of, fails_next, after_call};

use crate::Failed;
use crate::failing::Failing;
use std::marker::Model;

/// Where bytes come from.
pub trait Source {
    /// The bytes still to come, where the source tells them.
    ghost left: { Self → Option (List ℕ) };

    /// A count of failures that never falls. It stays at `u64::MAX` once there.
    ghost faults: { Self → ℕ };

    /// Takes the next bytes into the front of the slice, and answers how many.
    /// It answers `Ok(0)` on a slice that is not empty only at the end of the input.
    ///
    /// `Failed`: the outside failed. No byte is lost by it, and the next call may go on.
    fn take(&mut self, into: &mut [u8]) -> Result<usize, Failed>
        ensures within { IfOk result (λ n. n ≤ length into.old) }
        ensures given { IfOk result (λ n. Gives (left self.old) (take n into.new) (left self.new)) }
        ensures end { result ≡ Ok 0 → 0 < length into.old → IfSome (left self.new) (λ rest. rest ≡ []) }
        ensures failed { OnErr result (Rose (faults self.old) (faults self.new)) }
        ensures steady { OnOk result (faults self.new ≡ faults self.old) }
        ensures kept { OnErr result (left self.new ≡ left self.old) }
        ensures faults { faults self.old ≤ faults self.new };
}

/// Gives the bytes of a vector from front to back, as many at a time as fit. It never fails.
///
/// In clauses it is the list of the bytes that are left.
#[derive(Drop)]
pub struct SureSource {
    bytes: Vec<u8>,
    at: usize,
}

impl Model for SureSource {
    ghost use Rattle.std.specs.Prelude.{◌≤◌, ℕ, List, drop, vec_len};

    ghost Value = { List ℕ };

    ghost view = { λ s. drop s.at s.bytes.items };

    ghost invariant = { λ s. s.at ≤ vec_len s.bytes };
}

impl SureSource {
    pub fn new(bytes: Vec<u8>) -> SureSource
        ensures { result ≡ bytes.items }
    {
        SureSource { bytes, at: 0 }
    }
}

impl Source for SureSource {
    ghost left = { λ s. Some s };

    ghost faults = { λ _. 0 };

    // It says more than the trait does, of which each clause follows.
    fn take(&mut self, into: &mut [u8]) -> Result<usize, Failed>
        ensures count { result ≡ Ok (min (length into.old) (length self.old)) }
        ensures bytes { IfOk result (λ n. into.new ≡ take n self.old ++ drop n into.old) }
        ensures rest { IfOk result (λ n. self.new ≡ drop n self.old) }
    {
        let rest = &self.bytes[self.at..];
        let n = rest.len().min(into.len());
        into[..n].copy_from_slice(&rest[..n]);
        self.at += n;
        Ok(n)
    }
}

/// Gives the bytes of a vector like a `SureSource`, and fails at the calls that it is told to fail at.
///
/// In clauses it is the bytes that are left, and its plan: the numbers of those calls, the calls and the failures so far.
#[derive(Drop)]
pub struct MemSource {
    rest: SureSource,
    failing: Failing,
}

impl Model for MemSource {
    ghost use Rattle.env_io.specs.Memory.{Feed};

    ghost Value = { Feed };

    ghost view = { λ s. record { left = s.rest; plan = s.failing } };
}

impl MemSource {
    /// The calls are numbered from 1. Those whose numbers stand in `fails` fail.
    pub fn new(bytes: Vec<u8>, fails: Vec<u32>) -> MemSource
        ensures left { result.left ≡ bytes.items }
        ensures plan { result.plan ≡ plan_of fails.items }
    {
        MemSource {
            rest: SureSource::new(bytes),
            failing: Failing::new(fails),
        }
    }
}

impl Source for MemSource {
    ghost left = { λ s. Some s.left };

    ghost faults = { λ s. s.plan.faults };

    fn take(&mut self, into: &mut [u8]) -> Result<usize, Failed>
        ensures listed { IsErr result ↔ IsTrue (fails_next self.old.plan) }
        ensures counted { self.new.plan ≡ after_call self.old.plan }
        ensures count { IfOk result (λ n. n ≡ min (length into.old) (length self.old.left)) }
        ensures bytes { IfOk result (λ n. into.new ≡ take n self.old.left ++ drop n into.old) }
        ensures rest { IfOk result (λ n. self.new.left ≡ drop n self.old.left) }
        ensures kept { OnErr result (self.new.left ≡ self.old.left) }

        // What of the trait's clauses does not follow from these.
        ensures failed { OnErr result (Rose self.old.plan.faults self.new.plan.faults) }
        ensures steady { OnOk result (self.new.plan.faults ≡ self.old.plan.faults) }
        ensures faults { self.old.plan.faults ≤ self.new.plan.faults }
    {
        if self.failing.next() {
            return Err(Failed);
        }
        self.rest.take(into)
    }
}
