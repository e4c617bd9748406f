ghost use Rattle.std.specs.Prelude.{◌≡◌, ◌≢◌, ◌≤◌, ◌<◌, ◌==◌, ◌↔◌, [], All, IfOk, IfSome, IsNone, None, Some, length, replicate};
ghost use Rattle.queue_selector.specs.Fronts.{least_class};
ghost use Rattle.queue_selector.specs.Rows.{closed_row, order_in};
ghost use Rattle.queue_selector.specs.Selecting.{choice, immediate_is_open, open_fronts, row_at, streak_after, with_class, with_front};
ghost use Rattle.queue_selector.specs.Sorted.{first_of, set_place};
ghost use Rattle.std.specs.List.{list_any};
ghost use Rattle.task_base.specs.declared.script.Lane.{Lane};
ghost use Rattle.queue_selector.specs.declared.selector.TheConstants.{LAST_CLASS, SETS};

use crate::front::{Front, sooner};
use crate::front_set::{Entry, FrontSet};
use crate::row::Row;
use std::alloc::{AllocError, Global};
use std::marker::Model;
use task_base::{Lane, QueueId};

/// The last of the classes of main queues (this project's own rule).
pub const LAST_CLASS: u8 = 7;

/// How many sets of open fronts there are: one for each class and lane.
const SETS: usize = 2 * (LAST_CLASS as usize + 1);

/// Selects the main queue that runs next (Chromium's `TaskQueueSelector` of `task_queue_selector.h`), from what it is
/// told of each queue's class and fronts. A front is open where its task may run: its lane is not empty, all voters vote
/// for its queue, and the queue's fence lets it pass. The open fronts lie in sets that rise in order, one for each class
/// and lane (Chromium's `WorkQueueSets` of `work_queue_sets.h`), so that the choice is between the first of two sets.
/// All room is taken at the start; no later call takes memory.
#[derive(Debug, Drop)]
pub struct Selector {
    rows: Vec<Row>,
    sets: Vec<FrontSet>,
    streak: u32,
}

impl Model for Selector {
    ghost use Rattle.queue_selector.specs.Selecting.{Selecting};
    ghost use Rattle.queue_selector.specs.Sorted.{IsSorted};

    ghost Value = { Selecting };

    ghost view = { λ s. record { rows = s.rows.items; streak = s.streak } };

    ghost invariant = { λ s. IsSorted s.rows.items s.sets.items };
}

impl Selector {
    /// So many queues, each of class 0, with no open front. The error is want of memory.
    pub fn new(alloc: Global, queues: u32) -> Result<Selector, AllocError>
        ensures { IfOk result (λ selector. selector ≡ record { rows = replicate queues closed_row; streak = 0 }) }
    {
        let rows = vec![in alloc; Row::CLOSED; queues as usize]?;
        let sets = empty_sets(alloc, queues)?;
        Ok(Selector {
            rows,
            sets,
            streak: 0,
        })
    }

    /// Puts a queue, with its fronts, in another class.
    pub fn set_class(&mut self, queue: QueueId, class: u8)
        requires queue { queue < length self.old.rows }
        requires class { class ≤ LAST_CLASS }
        ensures { self.new ≡ with_class self.old queue class }
    {
        let row = self.rows[queue as usize];
        self.close(queue, Lane::Immediate);
        self.close(queue, Lane::Delayed);
        self.put_closed(queue, class);
        self.open(queue, Lane::Immediate, row.immediate);
        self.open(queue, Lane::Delayed, row.delayed);
    }

    /// Opens the front of one lane of a queue, at the order of its task, or closes it. Orders count the posts of all
    /// queues, so that no two tasks have the same one.
    pub fn set_front(&mut self, queue: QueueId, lane: Lane, order: Option<u64>)
        requires queue { queue < length self.old.rows }
        requires differs { IfSome order (λ order. All (λ front. front.order ≢ order) (open_fronts (with_front self.old queue lane None))) }
        ensures { self.new ≡ with_front self.old queue lane order }
    {
        self.close(queue, lane);
        self.open(queue, lane, order);
    }

    /// The queue and the lane whose front runs next.
    pub fn choose(&self) -> Option<(QueueId, Lane)>
        ensures choice { result ≡ choice self.now }
        ensures none { IsNone result ↔ (open_fronts self.now ≡ []) }
    {
        let class = self.least_class()?;
        let immediate = self.first(class, Lane::Immediate);
        let delayed = self.first(class, Lane::Delayed);
        sooner(self.streak, immediate, delayed).map(|front| (front.queue, front.lane))
    }

    /// Counts that the chosen front has been taken to run: a delayed one while an immediate one of its class waits
    /// makes the streak longer, and every other ends it. The front stays open until another one is set.
    pub fn took(&mut self, queue: QueueId, lane: Lane)
        requires { choice self.old ≡ Some (queue, lane) }
        ensures { self.new ≡ record self.old { streak = streak_after self.old lane } }
    {
        self.streak = self.streak_after(queue, lane);
    }

    fn streak_after(&self, queue: QueueId, lane: Lane) -> u32
        requires { choice self.now ≡ Some (queue, lane) }
        ensures { result ≡ streak_after self.now lane }
    {
        match lane {
            Lane::Immediate => 0,
            Lane::Delayed if self.immediate_is_open() => self.streak + 1,
            Lane::Delayed => 0,
        }
    }

    // Whether an immediate front of the least class is open.
    fn immediate_is_open(&self) -> bool
        ensures { result ≡ immediate_is_open self.now }
    {
        match self.least_class() {
            Some(class) => self.first(class, Lane::Immediate).is_some(),
            None => false,
        }
    }

    // The least class that has an open front.
    fn least_class(&self) -> Option<u8>
        ensures least { result ≡ least_class (open_fronts self.now) }
        ensures bound { IfSome result (λ class. class ≤ LAST_CLASS) }
    {
        // This makes the invariant known: no class is above the last one.
        let _ = &self.rows;
        for class in 0..=LAST_CLASS {
            if self.is_open(class) {
                return Some(class);
            }
        }
        None
    }

    // Whether a front of the class is open.
    fn is_open(&self, class: u8) -> bool
        requires class { class ≤ LAST_CLASS }
        ensures { result ≡ list_any (λ front. front.class == class) (open_fronts self.now) }
    {
        self.first(class, Lane::Immediate).is_some() || self.first(class, Lane::Delayed).is_some()
    }

    // The first of the open fronts of a class in a lane.
    fn first(&self, class: u8, lane: Lane) -> Option<Front>
        requires class { class ≤ LAST_CLASS }
        ensures { result ≡ first_of class lane (open_fronts self.now) }
    {
        let first = self.sets[set_place(class, lane)].first();
        first.map(|entry| Front {
            class,
            lane,
            order: entry.order,
            queue: entry.queue,
        })
    }

    // Closes the front of one lane of a queue, if it is open.
    fn close(&mut self, queue: QueueId, lane: Lane)
        requires queue { queue < length self.old.rows }
        ensures { self.new ≡ with_front self.old queue lane None }
    {
        let place = queue as usize;
        let row = self.rows[place];
        let Some(order) = row.order(lane) else {
            return;
        };
        self.sets[set_place(row.class, lane)].remove(order);
        self.rows[place] = row.with_order(lane, None);
    }

    // Opens the front of one lane of a queue, which is closed, if there is an order for it.
    fn open(&mut self, queue: QueueId, lane: Lane, order: Option<u64>)
        requires queue { queue < length self.old.rows }
        requires closed { order_in lane (row_at self.old queue) ≡ None }
        requires differs { IfSome order (λ order. All (λ front. front.order ≢ order) (open_fronts self.old)) }
        ensures { self.new ≡ with_front self.old queue lane order }
    {
        let Some(order) = order else {
            return;
        };
        let place = queue as usize;
        let row = self.rows[place];
        self.sets[set_place(row.class, lane)].insert(Entry { order, queue });
        self.rows[place] = row.with_order(lane, Some(order));
    }

    // Puts a queue with no open front in another class.
    fn put_closed(&mut self, queue: QueueId, class: u8)
        requires queue { queue < length self.old.rows }
        requires class { class ≤ LAST_CLASS }
        requires closed { (lane : Lane) → order_in lane (row_at self.old queue) ≡ None }
        ensures { self.new ≡ with_class self.old queue class }
    {
        self.rows[queue as usize].class = class;
    }
}

// A set for each class and lane, with no front in it.
fn empty_sets(alloc: Global, room: u32) -> Result<Vec<FrontSet>, AllocError>
    ensures { IfOk result (λ sets. sets.items ≡ replicate SETS (record { entries = []; room = room })) }
{
    let mut sets = Vec::with_capacity(alloc, SETS)?;
    for _set in 0..SETS {
        sets.push(FrontSet::new(alloc, room)?)?;
    }
    Ok(sets)
}

// The place of the set of a class and a lane among all sets.
fn set_place(class: u8, lane: Lane) -> usize
    ensures { result ≡ set_place class lane }
{
    match lane {
        Lane::Immediate => 2 * usize::from(class),
        Lane::Delayed => 2 * usize::from(class) + 1,
    }
}
