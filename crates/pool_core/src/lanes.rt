ghost use Rattle.std.specs.Prelude.{◌≡◌, ◌+◌, ◌<◌, ◌^◌, Bool, true, false, Some, None, filter, length, IfOk};
ghost use Rattle.list_laws.specs.Lists.{keep};
ghost use Rattle.sequence_queue.specs.Ranked.{IsBest, IsMadeFor, with_rank};
ghost use Rattle.task_model.specs.Seats.{worker_seats};
ghost use Rattle.pool_core.specs.Queues.{fits, queue_of, with_source, empty_lane, empty_lanes, is_representative, is_stated, sequence_room, job_room};

use sequence_queue::{Rank, SourceQueue};
use std::alloc::{AllocError, Global};
use std::marker::Model;
use task_base::{Priority, RunnerKind, Script, SeatNo, TaskSource};

/// The sources that the same seats may take: the best-effort ones, and the others.
#[derive(Debug, Drop)]
pub struct Lane {
    pub best_effort: SourceQueue,
    pub others: SourceQueue,
}

/// The sources that wait, by the seats that may take them: lane 0 has those that any seat may take, and each other one
/// those of the single-thread runners that state its seat.
#[derive(Debug, Drop)]
pub struct Lanes {
    lanes: Vec<Lane>,
}

impl Model for Lanes {
    ghost use Rattle.std.specs.Prelude.{List};
    ghost use Rattle.pool_core.specs.declared.lanes.Lane.{Lane};

    ghost Value = { List Lane };

    ghost view = { λ l. l.lanes.items };
}

impl Lanes {
    /// Empty lanes with room for the sources of a script. The error is want of memory.
    pub fn new(alloc: Global, script: &Script) -> Result<Lanes, AllocError>
        requires fit { length script.now.runners + length script.now.tasks < 2 ^ 31 }
        requires few_jobs { length script.now.jobs < 2 ^ 31 }
        requires few_seats { script.now.workers < 2 ^ 31 }
        ensures { IfOk result (λ lanes. lanes ≡ empty_lanes script.now) }
    {
        let mut lanes = Vec::with_capacity(alloc, script.workers as usize + 1)?;
        for seat in 0..=script.workers {
            lanes.push(Lane::new(alloc, script, seat)?)?;
        }
        Ok(Lanes { lanes })
    }

    /// Holds a source of a lane with this rank, or doesn't hold it, whatever was before.
    pub fn put(&mut self, lane: SeatNo, source: TaskSource, rank: Option<Rank>)
        requires there { lane < length self.old }
        requires made { (best : Bool) → IsMadeFor (queue_of self.old lane best) source }
        ensures { self.new ≡ with_source self.old lane source rank }
    {
        self.lanes[lane as usize].put(source, rank);
    }

    /// Doesn't hold a source of a lane, whatever was before.
    pub fn let_go(&mut self, lane: SeatNo, source: TaskSource)
        requires there { lane < length self.old }
        requires made { (best : Bool) → IsMadeFor (queue_of self.old lane best) source }
        ensures { self.new ≡ with_source self.old lane source None }
    {
        self.lanes[lane as usize].let_go(source);
    }

    /// The best source of a lane, with its rank.
    pub fn best(&self, lane: SeatNo, best_effort: bool) -> Option<(TaskSource, Rank)>
        requires { lane < length self.now }
        ensures { IsBest (queue_of self.now lane best_effort) result }
    {
        let lane = &self.lanes[lane as usize];
        if best_effort {
            lane.best_effort.best()
        } else {
            lane.others.best()
        }
    }
}

impl Lane {
    fn new(alloc: Global, script: &Script, seat: SeatNo) -> Result<Lane, AllocError>
        requires fit { length script.now.runners + length script.now.tasks < 2 ^ 31 }
        requires few_jobs { length script.now.jobs < 2 ^ 31 }
        ensures { IfOk result (λ lane. lane ≡ empty_lane script.now seat) }
    {
        let (sequences, jobs) = room(script, seat);
        Ok(Lane {
            best_effort: SourceQueue::new(alloc, sequences, jobs)?,
            others: SourceQueue::new(alloc, sequences, jobs)?,
        })
    }

    // Holds a source with this rank in the queue that it belongs to, or doesn't hold it, whatever was before.
    fn put(&mut self, source: TaskSource, rank: Option<Rank>)
        requires best_effort { IsMadeFor self.old.best_effort source }
        requires others { IsMadeFor self.old.others source }
        ensures best_effort { self.new.best_effort ≡ with_rank self.old.best_effort source (keep (fits true) rank) }
        ensures others { self.new.others ≡ with_rank self.old.others source (keep (fits false) rank) }
    {
        match rank {
            Some(rank) if rank.priority == Priority::BestEffort => {
                hold(&mut self.best_effort, &mut self.others, source, rank);
            }
            Some(rank) => hold(&mut self.others, &mut self.best_effort, source, rank),
            None => self.let_go(source),
        }
    }

    // Doesn't hold a source, whatever was before.
    fn let_go(&mut self, source: TaskSource)
        requires best_effort { IsMadeFor self.old.best_effort source }
        requires others { IsMadeFor self.old.others source }
        ensures best_effort { self.new.best_effort ≡ with_rank self.old.best_effort source None }
        ensures others { self.new.others ≡ with_rank self.old.others source None }
    {
        self.best_effort.remove(source);
        self.others.remove(source);
    }
}

// How many sequences and jobs a lane is made for.
fn room(script: &Script, seat: SeatNo) -> (u32, u32)
    requires fit { length script.now.runners + length script.now.tasks < 2 ^ 31 }
    requires few_jobs { length script.now.jobs < 2 ^ 31 }
    ensures sequences { result.0 ≡ sequence_room script.now seat }
    ensures jobs { result.1 ≡ job_room script.now seat }
{
    let runners = script.runners.len() as u32;
    if seat == 0 {
        return (
            runners + script.tasks.len() as u32,
            script.jobs.len() as u32,
        );
    }
    (if is_stated(script, seat) { runners } else { 0 }, 0)
}

/// The workers that answer for all: the first one, and each that a single-thread runner states. Where some worker may take
/// a source, one of these may. The error is want of memory.
pub fn representatives(alloc: Global, script: &Script) -> Result<Vec<SeatNo>, AllocError>
    requires { script.now.workers < 2 ^ 31 }
    ensures { IfOk result (λ seats. seats.items ≡ filter (is_representative script.now) (worker_seats script.now)) }
{
    let mut seats = Vec::new(alloc);
    for seat in 1..script.workers + 1 {
        if is_representative(script, seat) {
            seats.push(seat)?;
        }
    }
    Ok(seats)
}

// Whether a worker is the first one, or a single-thread runner states it.
fn is_representative(script: &Script, seat: SeatNo) -> bool
    ensures { result ≡ is_representative script.now seat }
{
    seat == 1 || is_stated(script, seat)
}

// Whether a single-thread runner states the seat.
fn is_stated(script: &Script, seat: SeatNo) -> bool
    ensures { result ≡ is_stated script.now seat }
{
    script
        .runners
        .as_slice()
        .iter()
        .any(|runner| runner.kind == RunnerKind::Single(seat))
}

// Holds a source in a queue with this rank, and not in the lane's other queue, whatever was before.
fn hold(queue: &mut SourceQueue, other: &mut SourceQueue, source: TaskSource, rank: Rank)
    requires queue { IsMadeFor queue.old source }
    requires other { IsMadeFor other.old source }
    ensures queue { queue.new ≡ with_rank queue.old source (Some rank) }
    ensures other { other.new ≡ with_rank other.old source None }
{
    other.remove(source);
    if !queue.rekey(source, rank) {
        queue.insert(source, rank);
    }
}
