ghost use Rattle.std.specs.Prelude.{◌≡◌, ◌+◌, ◌-◌, ◌^◌, ◌<◌, ◌≤◌, ◌↔◌, [], ℕ, List, min, length, take, IfOk, IfSome, Option, Some, None, OnOk, OnErr, IsErr, IsTrue};
ghost use Rattle.env_io.specs.Bytes.{Gains, Rose};
ghost use Rattle.env_io.specs.Failing.{plan_of, fails_next, after_call};
ghost use Rattle.env_io.specs.Memory.{taken_by, with_piece};

use crate::Failed;
use crate::failing::Failing;
use crate::store::Store;
use std::alloc::{AllocError, Global};
use std::marker::Model;

/// Where bytes go to.
pub trait Sink {
    /// The bytes taken so far, where the sink tells them.
    ghost holds: { Self → Option (List ℕ) };

    /// A count of failures that never falls. It stays at `u64::MAX` once there.
    ghost faults: { Self → ℕ };

    /// Takes bytes from the front of the piece, at least one if there is one, and answers how many.
    ///
    /// `Failed`: the outside failed. No byte is taken then, and the next call may go on.
    fn put(&mut self, piece: &[u8]) -> Result<usize, Failed>
        ensures within { IfOk result (λ n. n ≤ length piece.now) }
        ensures progress { 0 < length piece.now → IfOk result (λ n. 0 < n) }
        ensures taken { IfOk result (λ n. Gains (holds self.old) (take n piece.now) (holds self.new)) }
        ensures empty { piece.now ≡ [] → result ≡ Ok 0 }
        ensures failed { OnErr result (Rose (faults self.old) (faults self.new)) }
        ensures steady { OnOk result (faults self.new ≡ faults self.old) }
        ensures kept { OnErr result (holds self.new ≡ holds self.old) }
        ensures faults { faults self.old ≤ faults self.new };
}

/// Puts a whole piece, in as many calls as the sink wants. It makes no call for an empty piece.
///
/// `Failed`: a `put` failed. What went out before stays out.
pub fn put_all<K: Sink>(sink: &mut K, piece: &[u8]) -> Result<(), Failed>
    ensures written { OnOk result (Gains (K.holds sink.old) piece.now (K.holds sink.new)) }

    // What went out is a prefix of the piece.
    ensures cut { OnErr result ((n : ℕ) × Gains (K.holds sink.old) (take n piece.now) (K.holds sink.new)) }
    ensures failed { OnErr result (Rose (K.faults sink.old) (K.faults sink.new)) }
    ensures steady { OnOk result (K.faults sink.new ≡ K.faults sink.old) }
    ensures faults { K.faults sink.old ≤ K.faults sink.new }
{
    let mut done = 0;
    while done < piece.len() {
        done += sink.put(&piece[done..])?;
    }
    Ok(())
}

/// Takes each piece whole and keeps what it has room for. It fails at the calls that it is told to fail at.
///
/// It tells its bytes as long as it has kept all that it took. In clauses it is its store of bytes, and its plan: the
/// numbers of those calls, the calls and the failures so far.
#[derive(Drop)]
pub struct MemSink {
    store: Store,
    failing: Failing,
}

impl Model for MemSink {
    ghost use Rattle.env_io.specs.Memory.{FailingStore};

    ghost Value = { FailingStore };

    ghost view = { λ s. record { store = s.store; plan = s.failing } };
}

impl MemSink {
    /// The calls with a piece that is not empty are numbered from 1. Those whose numbers stand in `fails` fail.
    /// The sink keeps up to `room` bytes, and reserves the memory for them here.
    pub fn new(alloc: Global, fails: Vec<u32>, room: u32) -> Result<MemSink, AllocError>
        ensures empty { IfOk result (λ sink. taken_by sink.store ≡ Some []) }
        ensures room { IfOk result (λ sink. sink.store.room ≡ room) }
        ensures plan { IfOk result (λ sink. sink.plan ≡ plan_of fails.items) }
    {
        Ok(MemSink {
            store: Store::new(alloc, room)?,
            failing: Failing::new(fails),
        })
    }

    /// The bytes that were kept: the first that were taken, as many as there was room for.
    pub fn bytes(&self) -> &[u8]
        ensures kept { result.now ≡ self.now.store.kept }
        ensures told { IfSome (taken_by self.now.store) (λ taken. result.now ≡ taken) }
    {
        self.store.bytes()
    }
}

impl Sink for MemSink {
    ghost holds = { λ s. taken_by s.store };

    ghost faults = { λ s. s.plan.faults };

    fn put(&mut self, piece: &[u8]) -> Result<usize, Failed>
        ensures empty { piece.now ≡ [] → (result ≡ Ok 0) × (self.new ≡ self.old) }
        ensures all { IfOk result (λ n. n ≡ length piece.now) }
        ensures listed { 0 < length piece.now → (IsErr result ↔ IsTrue (fails_next self.old.plan)) }
        ensures counted { 0 < length piece.now → self.new.plan ≡ after_call self.old.plan }
        ensures stored { IfOk result (λ n. self.new.store ≡ with_piece self.old.store piece.now) }
        ensures kept { OnErr result (self.new.store ≡ self.old.store) }

        // What of the trait's clauses does not follow from these.
        ensures taken { IfOk result (λ n. Gains (taken_by self.old.store) (take n piece.now) (taken_by self.new.store)) }
        ensures failed { OnErr result (Rose self.old.plan.faults self.new.plan.faults) }
        ensures steady { OnOk result (self.new.plan.faults ≡ self.old.plan.faults) }
        ensures faults { self.old.plan.faults ≤ self.new.plan.faults }
    {
        if piece.is_empty() {
            return Ok(0);
        }
        if self.failing.next() {
            return Err(Failed);
        }
        self.store.keep(piece);
        Ok(piece.len())
    }
}

/// Counts the bytes that it takes, and keeps none. It never fails.
///
/// In clauses it is their number, which stays at `u64::MAX` once there.
#[derive(Drop)]
pub struct CountSink {
    count: u64,
}

impl Model for CountSink {
    ghost use Rattle.std.specs.Prelude.{ℕ};

    ghost Value = { ℕ };

    ghost view = { λ s. s.count };
}

impl CountSink {
    pub fn new() -> CountSink
        ensures { result ≡ 0 }
    {
        CountSink { count: 0 }
    }

    pub fn count(&self) -> u64
        ensures { result ≡ self.now }
    {
        self.count
    }
}

impl Sink for CountSink {
    ghost holds = { λ _. None };

    ghost faults = { λ _. 0 };

    // It says more than the trait does, of which each clause follows.
    fn put(&mut self, piece: &[u8]) -> Result<usize, Failed>
        ensures all { result ≡ Ok (length piece.now) }
        ensures counted { self.new ≡ min (self.old + length piece.now) (2 ^ 64 - 1) }
    {
        self.count = self.count.saturating_add(piece.len() as u64);
        Ok(piece.len())
    }
}
