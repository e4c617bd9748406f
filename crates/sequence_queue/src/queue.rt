ghost use Rattle.std.specs.Prelude.{◌≡◌, ◌<◌, ◌+◌, replicate, is_some, None, Some, IfOk, true, false};
ghost use Rattle.sequence_queue.specs.Ranked.{IsAmong, IsBest, IsMadeFor, number_in, number_of, rank_of, with_rank};

use crate::heap::Heap;
use crate::rank::Rank;
use std::alloc::{AllocError, Global};
use std::marker::Model;
use task_base::TaskSource;

/// Sources with their ranks, the best one at hand (Chromium's `PriorityQueue` of `thread_pool/priority_queue.h`).
///
/// `best` takes constant time, and the other calls take time at most logarithmic in the number of sources that are
/// held. After `new` no call takes memory.
#[derive(Debug, Drop)]
pub struct SourceQueue {
    sequences: u32,
    jobs: u32,
    heap: Heap,
}

impl Model for SourceQueue {
    ghost use Rattle.std.specs.Prelude.{◌≡◌, ◌+◌, length};
    ghost use Rattle.sequence_queue.specs.Heap.{IsHeap};
    ghost use Rattle.sequence_queue.specs.Ranked.{Ranked};

    ghost Value = { Ranked };

    ghost view = { λ q. record { sequences = q.sequences; jobs = q.jobs; ranks = q.heap.ranks.items } };

    ghost invariant = { λ q. IsHeap q.heap × (length q.heap.ranks.items ≡ q.sequences + q.jobs) };
}

impl SourceQueue {
    /// An empty queue for the sequences and the jobs whose numbers are below these. The error is want of memory.
    pub fn new(alloc: Global, sequences: u32, jobs: u32) -> Result<SourceQueue, AllocError>
        ensures { IfOk result (λ queue. queue ≡ record { sequences = sequences; jobs = jobs; ranks = replicate (sequences + jobs) None }) }
    {
        let heap = Heap::new(alloc, sequences as usize + jobs as usize)?;
        Ok(SourceQueue {
            sequences,
            jobs,
            heap,
        })
    }

    /// Holds a source that is not held, with this rank.
    pub fn insert(&mut self, source: TaskSource, rank: Rank)
        requires known { IsMadeFor self.old source }
        requires new { rank_of self.old source ≡ None }
        ensures { self.new ≡ with_rank self.old source (Some rank) }
    {
        let number = self.number(source);
        self.heap.insert(number, rank);
    }

    /// Lets go of a source, and answers whether it was held. Of one that was not, that look is all.
    pub fn remove(&mut self, source: TaskSource) -> bool
        requires { IsMadeFor self.old source }
        ensures answer { result ≡ is_some (rank_of self.old source) }
        ensures state { self.new ≡ with_rank self.old source None }
    {
        let number = self.number(source);
        let was_held = self.heap.rank(number).is_some();
        if was_held {
            self.heap.remove(number);
        }
        was_held
    }

    /// Gives a source that is held this rank, and answers whether it is held. Where it has this rank, nothing moves.
    pub fn rekey(&mut self, source: TaskSource, rank: Rank) -> bool
        requires { IsMadeFor self.old source }
        ensures answer { result ≡ is_some (rank_of self.old source) }
        ensures held { result ≡ true → self.new ≡ with_rank self.old source (Some rank) }
        ensures not_held { result ≡ false → self.new ≡ self.old }
    {
        let number = self.number(source);
        let Some(held) = self.heap.rank(number) else {
            return false;
        };
        if held != rank {
            self.heap.rekey(number, rank);
        }
        true
    }

    /// The source of least rank, with its rank, and none where no source is held. Of several such sources it is one.
    pub fn best(&self) -> Option<(TaskSource, Rank)>
        ensures { IsBest self.now result }
    {
        let number = self.heap.first()?;
        let rank = self.heap.rank(number)?;
        Some((source_at(self.sequences, self.jobs, number), rank))
    }

    // Where the heap has a source.
    fn number(&self, source: TaskSource) -> usize
        ensures { result ≡ number_of self.now source }
    {
        match source {
            TaskSource::Sequence(sequence) => sequence as usize,
            TaskSource::Job(job) => self.sequences as usize + job as usize,
        }
    }
}

// The source that has this number, of so many sequences and jobs.
fn source_at(sequences: u32, jobs: u32, number: usize) -> TaskSource
    requires { number < sequences + jobs }
    ensures known { IsAmong sequences jobs result }
    ensures number { number_in sequences result ≡ number }
{
    let sequences = sequences as usize;
    if number < sequences {
        TaskSource::Sequence(number as u32)
    } else {
        TaskSource::Job((number - sequences) as u32)
    }
}
