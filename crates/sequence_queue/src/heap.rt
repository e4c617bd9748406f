ghost use Rattle.std.specs.Prelude.{◌≡◌, ◌<◌, ◌^◌, ◌&&◌, ℕ, false, nat_lt, slice_set, replicate, is_some, true, None, Some, IfOk};
ghost use Rattle.sequence_queue.specs.Heap.{before, CountsUp, IsAbove, IsBelow, IsChild, IsExchanged, IsFirst, IsFirstBelow, IsHeap, IsHeapBut, HasPlaces, IsPlaced, ranks_first, rank_at, rank_of_number, size};

use crate::rank::Rank;
use std::alloc::{AllocError, Global};

/// A binary heap of the numbers that are held, of all numbers below a bound. Each number has a place and knows it:
/// those that are held the first ones, which are the heap, and the others those behind it, in any order.
#[derive(Debug, Drop)]
pub(crate) struct Heap {
    /// The rank of each number that is held.
    ranks: Vec<Option<Rank>>,
    /// The number at each place.
    order: Vec<usize>,
    /// The place of each number.
    places: Vec<usize>,
    /// How many numbers are held.
    held: usize,
}

impl Heap {
    /// A heap for this many numbers, none of which is held.
    pub(crate) fn new(alloc: Global, numbers: usize) -> Result<Heap, AllocError>
        requires { numbers < 2 ^ 62 }
        ensures heap { IfOk result IsHeap }
        ensures empty { IfOk result (λ heap. heap.ranks.items ≡ replicate numbers None) }
    {
        let ranks = vec![in alloc; None; numbers]?;
        let order = numbers_below(alloc, numbers)?;
        let places = numbers_below(alloc, numbers)?;
        Ok(Heap {
            ranks,
            order,
            places,
            held: 0,
        })
    }

    /// The rank of a number, where it is held. Constant time.
    pub(crate) fn rank(&self, number: usize) -> Option<Rank>
        requires { number < size self.now }
        ensures { result ≡ rank_of_number self.now number }
    {
        self.ranks[number]
    }

    /// The number that goes before all others, where one is held. Constant time.
    pub(crate) fn first(&self) -> Option<usize>
        requires { IsHeap self.now }
        ensures { IsFirst self.now result }
    {
        if self.held == 0 {
            return None;
        }
        Some(self.order[0])
    }

    /// Holds a number that is not held. Time logarithmic in how many are held.
    pub(crate) fn insert(&mut self, number: usize, rank: Rank)
        requires heap { IsHeap self.old }
        requires within { number < size self.old }
        requires new { rank_of_number self.old number ≡ None }
        ensures heap { IsHeap self.new }
        ensures ranks { self.new.ranks.items ≡ slice_set self.old.ranks.items number (Some rank) }
    {
        let place = self.places[number];
        let last = self.held;
        self.ranks[number] = Some(rank);
        self.exchange(place, last);
        self.held += 1;
        self.climb(last);
    }

    /// Lets go of a number that is held. Time logarithmic in how many are held.
    pub(crate) fn remove(&mut self, number: usize)
        requires heap { IsHeap self.old }
        requires within { number < size self.old }
        requires held { is_some (rank_of_number self.old number) ≡ true }
        ensures heap { IsHeap self.new }
        ensures ranks { self.new.ranks.items ≡ slice_set self.old.ranks.items number None }
    {
        let place = self.places[number];
        let last = self.held - 1;
        self.ranks[number] = None;
        self.exchange(place, last);
        self.held = last;
        if place < last {
            self.refill(place);
        }
    }

    /// Gives a number that is held another rank. Time logarithmic in how many are held.
    pub(crate) fn rekey(&mut self, number: usize, rank: Rank)
        requires heap { IsHeap self.old }
        requires within { number < size self.old }
        requires held { is_some (rank_of_number self.old number) ≡ true }
        ensures heap { IsHeap self.new }
        ensures ranks { self.new.ranks.items ≡ slice_set self.old.ranks.items number (Some rank) }
    {
        let place = self.places[number];
        self.ranks[number] = Some(rank);
        self.settle(place);
    }

    // Moves the number at a place to where its rank belongs.
    fn settle(&mut self, place: usize)
        requires { IsHeapBut self.old place }
        ensures heap { IsHeap self.new }
        ensures ranks { self.new.ranks ≡ self.old.ranks }
    {
        if self.goes_up(place) {
            self.climb(place);
        } else {
            self.sink(place);
        }
    }

    // Moves the number at a place up, as long as it goes before the one above it.
    fn climb(&mut self, place: usize)
        requires loose { IsHeapBut self.old place }
        requires high { IsAbove (rank_at self.old) self.old.held place }
        ensures heap { IsHeap self.new }
        ensures ranks { self.new.ranks ≡ self.old.ranks }
    {
        if self.goes_up(place) {
            let above = above(place);
            self.exchange(place, above);
            self.climb(above);
        }
    }

    // Moves the number at a place down, as long as one below it goes before it.
    fn sink(&mut self, place: usize)
        requires loose { IsHeapBut self.old place }
        requires low { IsBelow (rank_at self.old) place }
        ensures heap { IsHeap self.new }
        ensures ranks { self.new.ranks ≡ self.old.ranks }
    {
        let below = self.first_below(place);
        if self.goes_before(below, place) {
            self.exchange(place, below);
            self.sink(below);
        }
    }

    // Moves the number at a place to where its rank belongs: down to the end of the heap first, and up from there. One that comes
    // from the end mostly belongs there, and on the way down only those below are compared.
    fn refill(&mut self, place: usize)
        requires { IsHeapBut self.old place }
        ensures heap { IsHeap self.new }
        ensures ranks { self.new.ranks ≡ self.old.ranks }
    {
        let below = self.first_below(place);
        if below < self.held {
            self.exchange(place, below);
            self.refill(below);
        } else {
            self.climb(place);
        }
    }

    // Of the two places below this one, the one whose number goes before the other's.
    fn first_below(&self, place: usize) -> usize
        requires placed { IsPlaced self.now }
        requires within { place < self.now.held }
        ensures { IsFirstBelow self.now place result }
    {
        let left = 2 * place + 1;
        let right = left + 1;
        if self.goes_before(right, left) {
            right
        } else {
            left
        }
    }

    // Whether the number at a place goes before the one above it.
    fn goes_up(&self, place: usize) -> bool
        requires placed { IsPlaced self.now }
        requires within { place < self.now.held }
        ensures answer { (i : ℕ) → IsChild place i → result ≡ ranks_first self.now place i }
        ensures first { place ≡ 0 → result ≡ false }
    {
        place > 0 && self.goes_before(place, above(place))
    }

    // Whether a place is in the heap, and its number goes before the one at another place.
    fn goes_before(&self, place: usize, other: usize) -> bool
        requires placed { IsPlaced self.now }
        requires within { place < self.now.held → other < self.now.held }
        ensures { result ≡ (nat_lt place self.now.held && ranks_first self.now place other) }
    {
        place < self.held && before(self.rank_at(place), self.rank_at(other))
    }

    // The rank of the number at a place.
    fn rank_at(&self, place: usize) -> Option<Rank>
        requires paired { HasPlaces self.now }
        requires within { place < size self.now }
        ensures { result ≡ rank_at self.now place }
    {
        self.ranks[self.order[place]]
    }

    // Exchanges the numbers at two places.
    fn exchange(&mut self, place: usize, other: usize)
        requires paired { HasPlaces self.old }
        requires within { (place < size self.old) × (other < size self.old) }
        ensures { IsExchanged self.old self.new place other }
    {
        let (first, second) = (self.order[place], self.order[other]);
        self.order.swap(place, other);
        self.places.swap(first, second);
    }
}

// The place above another.
fn above(place: usize) -> usize
    requires { 0 < place }
    ensures child { IsChild place result }
    ensures less { result < place }
{
    (place - 1) / 2
}

// Whether a rank goes before another one, or before none.
fn before(rank: Option<Rank>, than: Option<Rank>) -> bool
    ensures { result ≡ before rank than }
{
    match (rank, than) {
        (Some(rank), Some(than)) => rank.is_below(&than),
        (rank, _) => rank.is_some(),
    }
}

// The numbers below a bound, in order.
fn numbers_below(alloc: Global, bound: usize) -> Result<Vec<usize>, AllocError>
    requires { bound < 2 ^ 62 }
    ensures { IfOk result (λ numbers. CountsUp numbers.items bound) }
{
    let mut numbers = Vec::with_capacity(alloc, bound)?;
    for number in 0..bound {
        numbers.push(number)?;
    }
    Ok(numbers)
}
