ghost use Rattle.std.specs.Prelude.{◌≡◌, ◌<◌, ◌++◌, [], min, length, take, drop, IfOk, IfSome, Some};
ghost use Rattle.env_io.specs.Bytes.{Gains};
ghost use Rattle.env_io.specs.Memory.{taken_by, with_piece};

use crate::store::Store;
use crate::{Failed, Sink, Source, SureSource};
use std::alloc::{AllocError, Global};
use std::marker::Model;

/// Gives the bytes of a vector from front to back, at most a given number in each call. It never fails.
///
/// In clauses it is the bytes that are left, and that number.
#[derive(Drop)]
pub struct PieceSource {
    rest: SureSource,
    size: usize,
}

impl Model for PieceSource {
    ghost use Rattle.std.specs.Prelude.{◌<◌};
    ghost use Rattle.env_io.specs.Memory.{PieceFeed};

    ghost Value = { PieceFeed };

    ghost view = { λ s. record { left = s.rest; size = s.size } };

    ghost invariant = { λ s. 0 < s.size };
}

impl PieceSource {
    /// Each call gives at most `size` bytes.
    pub fn new(bytes: Vec<u8>, size: u32) -> PieceSource
        requires { 0 < size }
        ensures left { result.left ≡ bytes.items }
        ensures size { result.size ≡ size }
    {
        PieceSource {
            rest: SureSource::new(bytes),
            size: size as usize,
        }
    }
}

impl Source for PieceSource {
    ghost left = { λ s. Some s.left };

    ghost faults = { λ _. 0 };

    fn take(&mut self, into: &mut [u8]) -> Result<usize, Failed>
        ensures count { result ≡ Ok (min self.old.size (min (length into.old) (length self.old.left))) }
        ensures bytes { IfOk result (λ n. into.new ≡ take n self.old.left ++ drop n into.old) }
        ensures rest { IfOk result (λ n. self.new ≡ record self.old { left = drop n self.old.left }) }

        // What of the trait's clauses does not follow from these.
        ensures end { result ≡ Ok 0 → 0 < length into.old → self.new.left ≡ [] }
    {
        let most = self.size.min(into.len());
        self.rest.take(&mut into[..most])
    }
}

/// Takes at most a given number of bytes in each call, and keeps what it has room for. It never fails.
///
/// It tells its bytes as long as it has kept all that it took. In clauses it is its store of bytes, and that number.
#[derive(Drop)]
pub struct PieceSink {
    store: Store,
    size: usize,
}

impl Model for PieceSink {
    ghost use Rattle.std.specs.Prelude.{◌<◌};
    ghost use Rattle.env_io.specs.Memory.{PieceStore};

    ghost Value = { PieceStore };

    ghost view = { λ s. record { store = s.store; size = s.size } };

    ghost invariant = { λ s. 0 < s.size };
}

impl PieceSink {
    /// Each call takes at most `size` bytes. The sink keeps up to `room` bytes, and reserves the memory for them here.
    pub fn new(alloc: Global, size: u32, room: u32) -> Result<PieceSink, AllocError>
        requires { 0 < size }
        ensures empty { IfOk result (λ sink. taken_by sink.store ≡ Some []) }
        ensures room { IfOk result (λ sink. sink.store.room ≡ room) }
        ensures size { IfOk result (λ sink. sink.size ≡ size) }
    {
        Ok(PieceSink {
            store: Store::new(alloc, room)?,
            size: size as usize,
        })
    }

    /// The bytes that were kept: the first that were taken, as many as there was room for.
    pub fn bytes(&self) -> &[u8]
        ensures kept { result.now ≡ self.now.store.kept }
        ensures told { IfSome (taken_by self.now.store) (λ taken. result.now ≡ taken) }
    {
        self.store.bytes()
    }
}

impl Sink for PieceSink {
    ghost holds = { λ s. taken_by s.store };

    ghost faults = { λ _. 0 };

    fn put(&mut self, piece: &[u8]) -> Result<usize, Failed>
        ensures count { result ≡ Ok (min self.old.size (length piece.now)) }
        ensures stored { IfOk result (λ n. self.new ≡ record self.old { store = with_piece self.old.store (take n piece.now) }) }

        // What of the trait's clauses does not follow from these.
        ensures progress { 0 < length piece.now → IfOk result (λ n. 0 < n) }
        ensures taken { IfOk result (λ n. Gains (taken_by self.old.store) (take n piece.now) (taken_by self.new.store)) }
    {
        let most = self.size.min(piece.len());
        self.store.keep(&piece[..most]);
        Ok(most)
    }
}
