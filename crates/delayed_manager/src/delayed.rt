ghost use Rattle.std.specs.Prelude.{◌≡◌, ◌≢◌, ◌<◌, ◌↔◌, [], length, drop, slice_get, All, IfOk, IfNone, IsNone, OnSome};
ghost use Rattle.std.specs.Option.{option_map};
ghost use Rattle.delayed_manager.specs.Delayed.{is_ripe, ripens_before, with_held};
ghost use Rattle.list_laws.specs.Lists.{keep};
ghost use Rattle.list_laws.specs.Sorts.{Rises, insert_by};

use crate::ripening::Ripening;
use std::alloc::{AllocError, Global};
use std::cmp::Reverse;
use std::collections::BinaryHeap;
use std::marker::Model;
use task_base::{Place, TaskId};

/// The delayed tasks of the pool or of a main queue (Chromium's `thread_pool/delayed_task_manager.h`). All its room
/// is taken at the start, so that no later call takes memory.
#[derive(Drop)]
pub struct Delayed {
    heap: BinaryHeap<Reverse<Ripening>>,
    room: u32,
}

impl Model for Delayed {
    ghost use Rattle.delayed_manager.specs.Delayed.{Waiting};
    ghost use Rattle.delayed_manager.specs.Heap.{IsSound, in_order};
    ghost use Rattle.std.specs.BinaryHeap.{heap_capacity, heap_items};

    ghost Value = { Waiting };

    ghost view = { λ d. record { held = in_order (heap_items d.heap); room = d.room } };

    ghost invariant = { λ d. IsSound (heap_items d.heap) (heap_capacity d.heap) d.room };
}

impl Delayed {
    /// No task, with room for so many. The error is want of memory.
    pub fn new(alloc: Global, room: u32) -> Result<Delayed, AllocError>
        ensures { IfOk result (λ delayed. delayed ≡ record { held = []; room = room }) }
    {
        let heap = BinaryHeap::with_capacity(alloc, room as usize)?;
        Ok(Delayed { heap, room })
    }

    /// Takes in a delayed task: its ripe moment in microseconds, and the place of its post, which no other has.
    pub fn add(&mut self, ripe: u64, post: Place, task: TaskId)
        requires room { length self.old.held < self.old.room }
        requires differs { All (λ other. other.post ≢ post) self.old.held }
        ensures { self.new ≡ with_held self.old (insert_by ripens_before (record { ripe = ripe; post = post; task = task }) self.old.held) }
    {
        let _ = self.heap.push(Reverse(Ripening { ripe, post, task }));
    }

    /// Removes the first task and gives it, if it is ripe by now.
    pub fn ripen(&mut self, now: u64) -> Option<Ripening>
        ensures first { result ≡ keep (is_ripe now) (slice_get self.old.held 0) }
        ensures none { IsNone result ↔ All (λ other. now < other.ripe) self.old.held }
        ensures removed { OnSome result (self.new ≡ with_held self.old (drop 1 self.old.held)) }
        ensures unchanged { IfNone result (self.new ≡ self.old) }
    {
        let first = self.peek()?;
        if now < first.ripe {
            return None;
        }
        self.remove_first();
        Some(first)
    }

    /// The moment at which the first task ripens.
    pub fn next(&self) -> Option<u64>
        ensures { result ≡ option_map (λ first. first.ripe) (slice_get self.now.held 0) }
    {
        self.peek().map(|first| first.ripe)
    }

    /// The first task: the one that ripens before all others.
    pub fn peek(&self) -> Option<Ripening>
        ensures first { result ≡ slice_get self.now.held 0 }
        ensures in_order { Rises ripens_before self.now.held }
    {
        match self.heap.peek() {
            Some(first) => Some(first.0),
            None => None,
        }
    }

    fn remove_first(&mut self)
        ensures { self.new ≡ with_held self.old (drop 1 self.old.held) }
    {
        let _ = self.heap.pop();
    }
}
