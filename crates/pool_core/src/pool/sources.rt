ghost use Rattle.std.specs.Prelude.{◌≡◌, ◌<◌, ◌+◌, ◌^◌, List, [], length, Some, None, is_some};
ghost use Rattle.task_base.specs.Plan.{Plan};
ghost use Rattle.task_base.specs.declared.entry.Entry.{Entry};
ghost use Rattle.task_model.specs.Sources.{best_of};
ghost use Rattle.task_sequence.specs.Sequences.{sequence_at};
ghost use Rattle.pool_core.specs.Calls.{KnowsSeat, is_any_ready, is_own};
ghost use Rattle.pool_core.specs.Choice.{HasOffer, IsBestOf, IsOffer, IsOffered, better_of, is_open, is_single};
ghost use Rattle.pool_core.specs.Refreshes.{HavePlaces, all_refreshed};
ghost use Rattle.pool_core.specs.Moving.{AnyList, IsMoved, IsMoving, IsRanked, IsSpare, NoList, set_aside};
ghost use Rattle.pool_core.specs.StandsFor.{StandsFor};
ghost use Rattle.pool_core.specs.TaskLists.{list_of};
ghost use Rattle.pool_core.specs.declared.pool.Pool.{Pool};
ghost use Rattle.pool_core.specs.State.{HasPlace, given_rank, refreshed, rank_of_head, sequence_by};

use crate::pool::Pool;
use crate::posting::Posting;
use sequence_queue::Rank;
use task_base::{Behaviour, Priority, RunnerId, SeatNo, SeqId, TaskId, TaskSource};

// The sources that wait: which one a seat takes, and the place of each sequence among them.
impl Pool {
    /// Whether there is a source that a seat may take now, which it would get if it runs nothing. Constant time.
    pub fn has_work(&self, seat: SeatNo) -> bool
        requires { (script : Plan) × (past : List Entry) × KnowsSeat script past self.now seat }
        ensures { (script : Plan) (past : List Entry) → KnowsSeat script past self.now seat → result ≡ is_some (best_of script past seat) }
    {
        self.offers(0) || self.offers(seat)
    }

    /// Whether the source that a seat would get is one that no other seat may take: a sequence of a single-thread runner, which
    /// states this seat. Constant time.
    pub fn has_own_work(&self, seat: SeatNo) -> bool
        requires { (script : Plan) × (past : List Entry) × KnowsSeat script past self.now seat }
        ensures { (script : Plan) (past : List Entry) → KnowsSeat script past self.now seat → result ≡ is_own (best_of script past seat) }
    {
        self.offers(seat) && self.is_single(self.best(seat))
    }

    /// Whether there is a source that some worker may take now, be it at work or not. Constant time for what any worker may
    /// take, and for each one that a single-thread runner states.
    pub fn is_any_ready(&self) -> bool
        requires { (script : Plan) × (past : List Entry) × StandsFor script past self.now }
        ensures { (script : Plan) (past : List Entry) → StandsFor script past self.now → result ≡ is_any_ready script past }
    {
        let seats = self.representatives.as_slice();
        if self.offers(0) {
            return !seats.is_empty();
        }
        for seat in seats {
            if self.offers(*seat) {
                return true;
            }
        }
        false
    }

    // The best source that a seat may take, with its rank.
    pub(super) fn best(&self, seat: SeatNo) -> Option<(TaskSource, Rank)>
        requires { seat < length self.now.lanes }
        ensures { IsBestOf (IsOffer self.now seat) result }
    {
        let best_effort = better(self.offer(0, true), self.offer(seat, true));
        let others = better(self.offer(0, false), self.offer(seat, false));
        better(others, best_effort)
    }

    // Whether a queue of the lane whose work may start holds a source.
    fn offers(&self, lane: SeatNo) -> bool
        requires { lane < length self.now.lanes }
        ensures { HasOffer self.now lane result }
    {
        self.offer(lane, false).is_some() || self.offer(lane, true).is_some()
    }

    // The best source of one queue, unless its work may not start.
    fn offer(&self, lane: SeatNo, best_effort: bool) -> Option<(TaskSource, Rank)>
        requires { lane < length self.now.lanes }
        ensures { IsBestOf (IsOffered self.now lane best_effort) result }
    {
        // An empty lane is seen at once, so it comes first.
        let best = self.lanes.best(lane, best_effort)?;
        if self.is_open(best_effort) {
            Some(best)
        } else {
            None
        }
    }

    // Whether work of the queues for best-effort sources, or of the others, may start now. No phase that has work is
    // against block work, and all work of such queues is of one group and held back by the same policies.
    fn is_open(&self, best_effort: bool) -> bool
        ensures { result ≡ is_open self.now best_effort }
    {
        let priority = if best_effort {
            Priority::BestEffort
        } else {
            Priority::UserVisible
        };
        let background = self.runners.background(priority);
        self.tracker.may_run(priority, Behaviour::BlockShutdown)
            && self.groups.has_room(background, priority)
    }

    // Whether there is a source, and it is the sequence of a single-thread runner, which has the runner's number.
    fn is_single(&self, source: Option<(TaskSource, Rank)>) -> bool
        requires { length self.now.priorities.items ≡ length self.now.runners.runners }
        ensures { result ≡ is_single self.now.runners source }
    {
        match source {
            Some((TaskSource::Sequence(seq), _)) => {
                (seq as usize) < self.priorities.len() && self.runners.seat_of(seq).is_some()
            }
            Some((TaskSource::Job(_), _)) | None => false,
        }
    }

    // Gives a sequence its place among the sources that wait, by its list, its cell and its runner's present priority.
    pub(super) fn refresh(&mut self, seq: SeqId, runner: RunnerId)
        requires { HasPlace self.old seq runner }
        ensures { self.new ≡ refreshed self.old seq runner }
    {
        let rank = self.rank(seq, self.priorities[runner as usize]);
        self.put(seq, runner, rank);
    }

    // Holds a sequence with this rank among the sources that wait, or doesn't hold it, whatever was before.
    fn put(&mut self, seq: SeqId, runner: RunnerId, rank: Option<Rank>)
        requires { HasPlace self.old seq runner }
        ensures { self.new ≡ given_rank self.old seq runner rank }
    {
        let lane = self.runners.seat_of(runner).unwrap_or(0);
        self.lanes.put(lane, TaskSource::Sequence(seq), rank);
    }

    // Doesn't hold a sequence among the sources that wait, whatever was before.
    fn remove(&mut self, seq: SeqId, runner: RunnerId)
        requires { HasPlace self.old seq runner }
        ensures { self.new ≡ given_rank self.old seq runner None }
    {
        let lane = self.runners.seat_of(runner).unwrap_or(0);
        self.lanes.let_go(lane, TaskSource::Sequence(seq));
    }

    // Gives what waits of a runner whose priority has changed its place anew: the runner's own sequence, or the sequences of
    // its tasks.
    pub(super) fn place_anew(&mut self, runner: RunnerId)
        requires { (script : Plan) × (past : List Entry) × (before : Pool) × IsRanked script past before self.old runner }
        ensures { (script : Plan) (past : List Entry) (before : Pool) → IsRanked script past before self.old runner
            → IsMoved script past self.old self.new runner }
    {
        self.refresh(runner, runner);
        self.let_go(runner);
        self.place_listed(runner);
    }

    // Takes the sequences of a runner's tasks from among the sources that wait, before they are given their places anew: the
    // last one first, since that of a heap in order leaves without a move. What no longer waits leaves the list.
    fn let_go(&mut self, runner: RunnerId)
        requires { (script : Plan) × (past : List Entry) × IsMoving script past self.old runner AnyList }
        ensures moves { (script : Plan) (past : List Entry) → IsMoving script past self.old runner AnyList
            → IsMoving script past self.new runner (IsSpare script) }
        ensures others { self.new ≡ record self.old { lanes = self.new.lanes; lists = self.new.lists } }
    {
        while let Some(task) = self.lists.pop(runner as usize) {
            let seq = self.runners.seq_of(runner, task);
            self.remove(seq, runner);
            self.set_aside(seq, task);
        }
    }

    // Puts a task into the spare list, where it waits.
    fn set_aside(&mut self, seq: SeqId, task: TaskId)
        requires seq { seq < length self.old.sequences.sequences }
        requires there { length self.old.priorities.items < length self.old.lists.lines }
        requires known { task < length self.old.lists.after }
        ensures { self.new ≡ record self.old { lists = set_aside self.old seq task } }
    {
        if self.sequences.head(seq).is_some() {
            self.lists.push(self.priorities.len(), task);
        }
    }

    // Gives the sequences of a runner's tasks their places among the sources that wait, the first one first.
    fn place_listed(&mut self, runner: RunnerId)
        requires { (script : Plan) × (past : List Entry) × IsMoving script past self.old runner (IsSpare script) }
        ensures moves { (script : Plan) (past : List Entry) → IsMoving script past self.old runner (IsSpare script)
            → IsMoving script past self.new runner NoList × (list_of self.new.lists (length script.runners) ≡ []) }
        ensures others { self.new ≡ record self.old { lanes = self.new.lanes; lists = self.new.lists } }
    {
        while let Some(task) = self.lists.pop(self.priorities.len()) {
            let seq = self.runners.seq_of(runner, task);
            self.refresh(seq, runner);
            self.lists.push(runner as usize, task);
        }
    }

    // Gives the sequence of each task that was posted its place among the sources that wait.
    pub(super) fn refresh_all(&mut self)
        requires { HavePlaces self.old }
        ensures { self.new ≡ all_refreshed self.old }
    {
        for task in 0..self.postings.len() {
            if let Some(posting) = self.postings[task] {
                let seq = self.seq_at(task, posting);
                self.refresh(seq, posting.runner);
            }
        }
    }

    // The sequence of a task that was posted so.
    fn seq_at(&self, task: usize, posting: Posting) -> SeqId
        requires { (length self.now.runners.runners + task < 2 ^ 32) × HasPlace self.now (sequence_by self.now task posting) posting.runner }
        ensures { result ≡ sequence_by self.now task posting }
    {
        self.runners.seq_of(posting.runner, task as TaskId)
    }

    // The rank of a sequence, where it doesn't run and has a head.
    fn rank(&self, seq: SeqId, priority: Priority) -> Option<Rank>
        requires { seq < length self.now.sequences.sequences }
        ensures { result ≡ rank_of_head priority (sequence_at self.now.sequences seq) }
    {
        if !self.sequences.is_home(seq) {
            return None;
        }
        let (_, key) = self.sequences.head(seq)?;
        Some(Rank {
            priority,
            inside: 0,
            key,
        })
    }
}

// The one whose rank goes before the other's; the first where neither does.
fn better(
    first: Option<(TaskSource, Rank)>,
    second: Option<(TaskSource, Rank)>,
) -> Option<(TaskSource, Rank)>
    ensures { result ≡ better_of first second }
{
    match (first, second) {
        (Some(one), Some(other)) => Some(if other.1.is_below(&one.1) { other } else { one }),
        (None, other) => other,
        (one, None) => one,
    }
}
