ghost use Rattle.std.specs.Prelude.{◌≡◌, ◌<◌, ◌==◌, [], length, filter, not, nat_lt, slice_get, IfOk};
ghost use Rattle.std.specs.List.{prefix_len};
ghost use Rattle.list_laws.specs.Sorts.{insert_by};
ghost use Rattle.queue_selector.specs.FrontSet.{entry_below, with_entries};

use std::alloc::{AllocError, Global};
use std::marker::Model;
use task_base::QueueId;

/// An open front, as the set of its class and its lane holds it.
#[derive(Clone, Copy, Debug)]
pub(crate) struct Entry {
    /// Its order.
    pub order: u64,
    /// Its queue.
    pub queue: QueueId,
}

/// The open fronts of one class in one lane, rising in order (one of the sets of Chromium's `work_queue_sets.h`). All its
/// room is taken at the start.
#[derive(Debug, Drop)]
pub(crate) struct FrontSet {
    entries: Vec<Entry>,
}

impl Model for FrontSet {
    ghost use Rattle.std.specs.Prelude.{vec_capacity};
    ghost use Rattle.queue_selector.specs.FrontSet.{Entries};

    ghost Value = { Entries };

    ghost view = { λ s. record { entries = s.entries.items; room = vec_capacity s.entries } };
}

impl FrontSet {
    /// No front, with room for so many. The error is want of memory.
    pub(crate) fn new(alloc: Global, room: u32) -> Result<FrontSet, AllocError>
        ensures { IfOk result (λ set. set ≡ record { entries = []; room = room }) }
    {
        let entries = Vec::with_capacity(alloc, room as usize)?;
        Ok(FrontSet { entries })
    }

    /// The front of least order.
    pub(crate) fn first(&self) -> Option<Entry>
        ensures { result ≡ slice_get self.now.entries 0 }
    {
        self.entries.first().copied()
    }

    /// Takes in a front.
    pub(crate) fn insert(&mut self, entry: Entry)
        requires room { length self.old.entries < self.old.room }
        ensures { self.new ≡ with_entries self.old (insert_by entry_below entry self.old.entries) }
    {
        let place = self.place(entry.order);
        let _ = self.entries.insert(place, entry);
    }

    /// Removes the front of an order, if it is there.
    pub(crate) fn remove(&mut self, order: u64)
        ensures { self.new ≡ with_entries self.old (filter (λ entry. not (entry.order == order)) self.old.entries) }
    {
        self.entries.retain(|entry| entry.order != order);
    }

    // How many of the first fronts have a lesser order.
    fn place(&self, order: u64) -> usize
        ensures { result ≡ prefix_len (λ entry. nat_lt entry.order order) self.now.entries }
    {
        self.entries
            .iter()
            .take_while(|entry| entry.order < order)
            .count()
    }
}
