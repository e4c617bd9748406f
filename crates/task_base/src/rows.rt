ghost use Rattle.std.specs.Prelude.{◌≡◌, ◌+◌, ◌-◌, ◌<◌, ◌≤◌, ◌^◌, ◌↔◌, ◌++◌, ◌∷◌, [], length, slice_get, option_copied, option_to_list, vec_len, vec_capacity, IsNone, IsOk, IfErr, IfOk, IfNone, IsTrue, OnErr, OnOk, OnSome};
ghost use Rattle.std.specs.Option.{option_copied_mut};

use std::alloc::{AllocError, Global};
use std::marker::Model;

/// A list that grows at its end, with room that can be taken ahead of time.
///
/// Contracts see it as its items and `spare`, the number of pushes for which room is taken.
#[derive(Debug, Drop)]
pub struct Rows<T> {
    items: Vec<T>,
}

impl<T> Model for Rows<T> {
    ghost use Rattle.std.specs.Prelude.{◌-◌, vec_len, vec_capacity};
    ghost use Rattle.task_base.specs.Rows.{Listed};

    ghost Value = { Listed T };

    ghost view = { λ r. record { items = r.items.items; spare = vec_capacity r.items - vec_len r.items } };
}

impl<T> Rows<T> {
    ghost use Rattle.std.specs.Borrow.{LendsIf, sem};
    ghost use Rattle.task_base.specs.Rows.{with_item};
    ghost use Rattle.task_base.specs.contracts.rows.Rows.{the_row};

    /// An empty list. It takes no memory, and grows with the allocator that it is given here.
    pub fn new(alloc: Global) -> Rows<T>
        ensures items { result.items ≡ [] }
        ensures spare { result.spare ≡ 0 }
    {
        Rows {
            items: Vec::new(alloc),
        }
    }

    /// The list of these items. It takes no memory: it keeps the vector, with its room and its allocator.
    pub fn from_vec(items: Vec<T>) -> Rows<T>
        ensures items { result.items ≡ items.items }
        ensures spare { result.spare ≡ vec_capacity items - vec_len items }
    {
        Rows { items }
    }

    /// The items as a vector, without taking memory.
    pub fn into_vec(self) -> Vec<T>
        ensures items { result.items ≡ self.items }
        ensures spare { vec_capacity result - vec_len result ≡ self.spare }
    {
        self.items
    }

    /// How many items there are.
    pub fn len(&self) -> usize
        ensures count { result ≡ length self.now.items }
        ensures bound { result < 2 ^ 63 }
    {
        self.items.len()
    }

    /// Whether there are none.
    pub fn is_empty(&self) -> bool
        ensures { IsTrue result ↔ (self.now.items ≡ []) }
    {
        self.items.is_empty()
    }

    /// The item at a place, counted from 0.
    pub fn at(&self, place: usize) -> Option<&T>
        ensures item { option_copied result ≡ slice_get self.now.items place }
        ensures past_end { IsNone result ↔ (length self.now.items ≤ place) }
        ensures bound { length self.now.items < 2 ^ 63 }
    {
        self.items.get(place)
    }

    /// The item at a place, counted from 0, to be changed where it lies.
    pub fn at_mut(&mut self, place: usize) -> Option<&mut T>
        ensures* writes_back { sem 𝓛 (LendsIf (the_row T.row) T.row self.entry result (with_item self.old place) self.old) }
        ensures item { option_copied_mut result ≡ slice_get self.old.items place }
        ensures past_end { IsNone result ↔ (length self.old.items ≤ place) }
        ensures bound { length self.old.items < 2 ^ 63 }
    {
        self.items.get_mut(place)
    }

    /// The items as a slice.
    pub fn as_slice(&self) -> &[T]
        ensures { result.now ≡ self.now.items }
    {
        self.items.as_slice()
    }

    /// Takes room for `more` pushes beyond the items that there are. The error is want of memory.
    pub fn reserve(&mut self, more: usize) -> Result<(), AllocError>
        ensures items { self.new.items ≡ self.old.items }
        ensures room { OnOk result (more ≤ self.new.spare) }
        ensures grows { self.old.spare ≤ self.new.spare }
        ensures enough { more ≤ self.old.spare → IsOk result }
        ensures err { OnErr result (self.new.spare ≡ self.old.spare) }
    {
        self.items.reserve(more)
    }

    /// Puts an item at the end. Want of memory hands the item back; it cannot come while there is spare
    /// room.
    pub fn push(&mut self, item: T) -> Result<(), T>
        ensures items { OnOk result (self.new.items ≡ self.old.items ++ item ∷ []) }
        ensures spare { 0 < self.old.spare → self.new.spare + 1 ≡ self.old.spare }
        ensures enough { 0 < self.old.spare → IsOk result }
        ensures handed_back { IfErr result (λ back. back ≡ item) }
        ensures err { OnErr result (self.new ≡ self.old) }
    {
        let full = self.items.len() == self.items.capacity();
        if full && self.items.reserve(1).is_err() {
            return Err(item);
        }
        self.push_spare(item);
        Ok(())
    }

    /// Puts an item at the end, in the spare room.
    pub fn push_spare(&mut self, item: T)
        requires { 0 < self.old.spare }
        ensures items { self.new.items ≡ self.old.items ++ item ∷ [] }
        ensures spare { self.new.spare + 1 ≡ self.old.spare }
    {
        self.items.push_reserved(item);
    }

    /// Removes the last item and gives it. Its room stays, as spare room.
    pub fn pop(&mut self) -> Option<T>
        ensures items { self.old.items ≡ self.new.items ++ option_to_list result }
        ensures found { OnSome result (self.new.spare ≡ self.old.spare + 1) }
        ensures empty { IsNone result ↔ (self.old.items ≡ []) }
        ensures unchanged { IfNone result (self.new ≡ self.old) }
    {
        self.items.pop()
    }

    /// An equal list with room of its own. The error is want of memory.
    pub fn copy(&self, alloc: Global) -> Result<Rows<T>, AllocError>
    where
        T: Copy,
        ensures { IfOk result (λ copied. copied.items ≡ self.now.items) }
    {
        let items = Vec::from_slice(alloc, self.items.as_slice())?;
        Ok(Rows { items })
    }
}
