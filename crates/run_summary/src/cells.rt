ghost use Rattle.std.specs.Prelude.{◌≡◌, ◌+◌, ◌%◌, ◌^◌, [], slice_set, sum, IfOk};
ghost use Rattle.task_base.specs.Runners.{sequence_of};
ghost use Rattle.run_summary.specs.Cells.{AreCells, home_at, homes_after, left_in_sequences, left_in_queues, sequences_after, queues_after};

use std::alloc::{AllocError, Global};
use task_base::{Entry, Kind, Runner, RunnerId, RunnerKind, Script, TaskId};

/// What the task that a seat runs belongs to.
#[derive(Clone, Copy)]
pub enum Home {
    /// The seat runs no task.
    Nothing,
    /// A task of this sequence.
    Sequence(usize),
    /// A task of this main queue.
    Queue(usize),
}

/// The cells of all sequences and main queues of a script, and what the task of each seat belongs to: all the memory that a
/// summary of its log takes.
#[derive(Drop)]
pub struct Cells {
    /// What the task of each seat belongs to, by the seat's number.
    pub homes: Vec<Home>,
    /// The cell of each sequence.
    pub sequences: Vec<u64>,
    /// The cell of each main queue.
    pub queues: Vec<u64>,
}

impl Cells {
    /// The cells before the first entry: all are 0, and no seat runs a task. The error is want of memory.
    pub fn new(alloc: Global, script: &Script) -> Result<Cells, AllocError>
        ensures { IfOk result (λ cells. AreCells script.now [] cells) }
    {
        let homes = vec![in alloc; Home::Nothing; script.workers as usize + 1]?;
        let sequences = vec![in alloc; 0; script.runners.len() + script.tasks.len()]?;
        let queues = vec![in alloc; 0; script.queues.len()]?;
        Ok(Cells {
            homes,
            sequences,
            queues,
        })
    }

    /// What one more entry does to the cells.
    pub(crate) fn enter(&mut self, script: &Script, entry: &Entry)
        ensures homes { self.new.homes.items ≡ homes_after script.now self.old.homes.items entry.now.seat entry.now.kind }
        ensures sequences { self.new.sequences.items ≡ sequences_after (home_at self.old.homes.items entry.now.seat) self.old.sequences.items entry.now.kind }
        ensures queues { self.new.queues.items ≡ queues_after (home_at self.old.homes.items entry.now.seat) self.old.queues.items entry.now.kind }
    {
        let seat = entry.seat as usize;
        match entry.kind {
            Kind::Take { task, runner, .. } => {
                let sequence = sequence_at(script, runner, task);
                put(&mut self.homes, seat, Home::Sequence(sequence));
            }
            Kind::MainTake { queue, .. } => put(&mut self.homes, seat, Home::Queue(queue as usize)),
            Kind::End { left, .. } => {
                let home = self.home(seat);
                leave_in_sequence(&mut self.sequences, home, left);
                put(&mut self.homes, seat, Home::Nothing);
            }
            Kind::MainEnd { left, .. } => {
                let home = self.home(seat);
                leave_in_queue(&mut self.queues, home, left);
                put(&mut self.homes, seat, Home::Nothing);
            }
            _ => {}
        }
    }

    /// The sum of all cells, modulo 2^64.
    pub(crate) fn sum(&self) -> u64
        ensures { result ≡ (sum self.now.sequences.items + sum self.now.queues.items) % 2 ^ 64 }
    {
        wrapping_sum(&self.sequences).wrapping_add(wrapping_sum(&self.queues))
    }

    /// What the task of a seat belongs to.
    fn home(&self, seat: usize) -> Home
        ensures { result ≡ home_at self.now.homes.items seat }
    {
        if seat < self.homes.len() {
            self.homes[seat]
        } else {
            Home::Nothing
        }
    }
}

/// The sequence that a task of a runner belongs to.
fn sequence_at(script: &Script, runner: RunnerId, task: TaskId) -> usize
    ensures { result ≡ sequence_of script.now runner task }
{
    match script.runners.at(runner as usize) {
        Some(
            Runner {
                kind: RunnerKind::Parallel,
                ..
            },
        ) => script.runners.len() + task as usize,
        _ => runner as usize,
    }
}

/// Puts a value at a place of a list, where the list has that place.
fn put<T: Drop>(items: &mut Vec<T>, place: usize, value: T)
    ensures { items.new.items ≡ slice_set items.old.items place value }
{
    if place < items.len() {
        items[place] = value;
    }
}

/// Leaves a value in the cell of the sequence that a task belongs to.
fn leave_in_sequence(cells: &mut Vec<u64>, home: Home, left: u64)
    ensures { cells.new.items ≡ left_in_sequences home left cells.old.items }
{
    if let Home::Sequence(sequence) = home {
        put(cells, sequence, left);
    }
}

/// Leaves a value in the cell of the main queue that a task belongs to.
fn leave_in_queue(cells: &mut Vec<u64>, home: Home, left: u64)
    ensures { cells.new.items ≡ left_in_queues home left cells.old.items }
{
    if let Home::Queue(queue) = home {
        put(cells, queue, left);
    }
}

/// The sum of numbers, modulo 2^64.
fn wrapping_sum(numbers: &[u64]) -> u64
    ensures { result ≡ sum numbers.now % 2 ^ 64 }
{
    let mut total: u64 = 0;
    for number in numbers {
        total = total.wrapping_add(*number);
    }
    total
}
