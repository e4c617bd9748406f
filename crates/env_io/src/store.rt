ghost use Rattle.std.specs.Prelude.{◌≡◌, ◌+◌, ◌≤◌, ◌++◌, [], length, vec_len, vec_capacity, IfOk, IfSome, Some};
ghost use Rattle.env_io.specs.Bytes.{Gains};
ghost use Rattle.env_io.specs.Memory.{taken_by, with_piece};

use std::alloc::{AllocError, Global};
use std::marker::Model;

// The bytes that a sink keeps, in memory that was reserved at first.
#[derive(Drop)]
pub(crate) struct Store {
    kept: Vec<u8>,
    room: usize,
    is_whole: bool,
}

impl Model for Store {
    ghost use Rattle.std.specs.Prelude.{◌≤◌, vec_len, vec_capacity};
    ghost use Rattle.env_io.specs.Memory.{Stored};

    ghost Value = { Stored };

    ghost view = { λ s. record { kept = s.kept.items; is_whole = s.is_whole; room = s.room } };

    ghost invariant = { λ s. (vec_len s.kept ≤ s.room) × (s.room ≤ vec_capacity s.kept) };
}

impl Store {
    pub(crate) fn new(alloc: Global, room: u32) -> Result<Store, AllocError>
        ensures empty { IfOk result (λ store. taken_by store ≡ Some []) }
        ensures room { IfOk result (λ store. store.room ≡ room) }
    {
        let room = room as usize;
        Ok(Store {
            kept: Vec::with_capacity(alloc, room)?,
            room,
            is_whole: true,
        })
    }

    pub(crate) fn bytes(&self) -> &[u8]
        ensures kept { result.now ≡ self.now.kept }
        ensures told { IfSome (taken_by self.now) (λ taken. result.now ≡ taken) }
    {
        &self.kept
    }

    // Keeps of the piece what there is room for.
    pub(crate) fn keep(&mut self, piece: &[u8])
        ensures kept { self.new ≡ with_piece self.old piece.now }
        ensures taken { Gains (taken_by self.old) piece.now (taken_by self.new) }
    {
        let free = self.room - self.kept.len();
        self.is_whole &= piece.len() <= free;
        append_reserved(&mut self.kept, &piece[..free.min(piece.len())]);
    }
}

// Appends to a vector that has room for the piece, so it takes no memory.
fn append_reserved(bytes: &mut Vec<u8>, piece: &[u8])
    requires { vec_len bytes.old + length piece.now ≤ vec_capacity bytes.old }
    ensures items { bytes.new.items ≡ bytes.old.items ++ piece.now }
    ensures capacity { vec_capacity bytes.old ≤ vec_capacity bytes.new }
{
    let _ = bytes.extend_from_slice(piece);
}
