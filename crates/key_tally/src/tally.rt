ghost use Rattle.std.specs.Prelude.{◌≡◌, ◌+◌, ◌*◌, ◌<◌, ◌↔◌, ℕ, List, [], IsTrue, OnErr, OnOk, Some, length, slice_get, sum_by};
ghost use Rattle.std.specs.List.{IsDistinct};
ghost use Rattle.std.specs.Map.{keys_of};
ghost use Rattle.std.specs.Map.Iter.{deref_pair};
ghost use Rattle.indexmap.specs.IndexMap.{insert_entry};
ghost use Rattle.key_tally.specs.Counts.{with_more};

use indexmap::IndexMap;
use natural_number::Natural;
use std::alloc::{AllocError, Global};
use std::hash::Hash;
use std::marker::Model;

/// How often keys were counted. Contracts see it as a list of keys with their numbers, in the order in which they came.
#[derive(Drop)]
pub struct Tally<K: Eq + Hash> {
    alloc: Global,
    counts: IndexMap<K, Natural>,
}

impl<K: Eq + Hash> Model for Tally<K> {
    ghost use Rattle.std.specs.Prelude.{ℕ, List};

    ghost Value = { List (K × ℕ) };

    ghost view = { λ t. t.counts.entries };
}

impl<K: Eq + Hash + Drop> Tally<K> {
    /// An empty one, which takes no memory.
    pub fn new(alloc: Global) -> Self
        ensures { result ≡ [] }
    {
        Tally {
            alloc,
            counts: IndexMap::new(alloc),
        }
    }

    /// How many keys there are.
    pub fn len(&self) -> usize
        ensures len { result ≡ length self.now }

        // No key stands twice.
        ensures once { IsDistinct K.eq (keys_of self.now) }
    {
        self.counts.as_slice().len()
    }

    /// Whether there are none.
    pub fn is_empty(&self) -> bool
        ensures { IsTrue result ↔ (self.now ≡ []) }
    {
        self.counts.is_empty()
    }

    /// The key at a place, and its number.
    pub fn at(&self, place: usize) -> (&K, &Natural)
        requires { place < length self.now }
        ensures { slice_get self.now place ≡ Some (deref_pair result) }
    {
        match self.counts.get_index(place) {
            Some(entry) => entry,
            None => unreachable!(),
        }
    }

    /// Counts a key so many times more. Out of memory, all stays as it was.
    pub fn add(&mut self, key: K, more: &Natural) -> Result<(), AllocError>
        ensures ok { OnOk result (self.new ≡ with_more K.eq key more.now self.old) }
        ensures err { OnErr result (self.new ≡ self.old) }
    {
        match self.counts.get_mut(&key) {
            Some(known) => known.add(more),
            None => self.bring(key, more),
        }
    }

    // Brings in a key that is not there.
    fn bring(&mut self, key: K, number: &Natural) -> Result<(), AllocError>
        ensures ok { OnOk result (self.new ≡ insert_entry K.eq self.old key number.now) }
        ensures err { OnErr result (self.new ≡ self.old) }
    {
        self.counts.insert(key, number.copy(self.alloc)?)?;
        Ok(())
    }
}

/// Counting adds up: whatever number keys have, equal keys the same, its sum over all keys, each as often as it was counted, grows
/// by that of the key that is counted more, as often as it is.
#[tactic(auto, using(crate::proofs::Counts::with_more_weighs))]
pub fn counting_adds_up<K: Eq>()
    ensures { (number : K → ℕ) → ((one other : K) → IsTrue (K.eq one other) → number one ≡ number other) → (key : K) (more : ℕ) (entries : List (K × ℕ))
        → sum_by (λ e. e.1 * number e.0) (with_more K.eq key more entries) ≡ sum_by (λ e. e.1 * number e.0) entries + more * number key }
{}
