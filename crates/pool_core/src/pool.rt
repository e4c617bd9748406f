ghost use Rattle.std.specs.Prelude.{◌≡◌, ◌==◌, if◌then◌else◌, length, ℕ, ◌+◌, ◌<◌, ◌≤◌, ◌↔◌, not, List, [], slice_get, Some, None, IsOk, IfOk, IfErr, OnErr, OnOk, false};
ghost use Rattle.task_base.specs.Plan.{Plan};
ghost use Rattle.task_base.specs.declared.entry.Entry.{Entry};
ghost use Rattle.task_model.specs.Blockers.{blockers_of};
ghost use Rattle.task_model.specs.Capacity.{OpenScope};
ghost use Rattle.task_model.specs.Refusal.{is_refused};
ghost use Rattle.task_base.specs.Runners.{sequence_of};
ghost use Rattle.task_model.specs.Seats.{Running, runs_sequence};
ghost use Rattle.pool_core.specs.Calls.{CanPost, CanTick, CanTake, IsChosen, RunsClosed, RunsOpen, KnowsRunner, KnowsTask, IsInPhase, TakeAnswers, running_tasks, is_any_ready, after_post, after_tick, after_take, after_end, after_enter, after_leave, after_policy, after_reprio, after_shutdown, after_done};
ghost use Rattle.pool_core.specs.Pasts.{IsPoolScript, pool_running};
ghost use Rattle.std.specs.Option.{option_map};
ghost use Rattle.task_model.specs.Time.{now_of};
ghost use Rattle.pool_core.specs.Ripens.{IsInTick};
ghost use Rattle.pool_core.specs.StandsFor.{StandsFor};
ghost use Rattle.pool_core.specs.TaskLists.{with_task};
ghost use Rattle.pool_core.specs.State.{CanArrive, CanRipen, arrived, ripened};
ghost use Rattle.pool_core.specs.declared.posting.Posting.{Posting};

mod jobs;
mod parts;
mod sources;

use crate::groups::Groups;
use crate::lanes::{Lanes, representatives};
use crate::pool::parts::{empty_places, first_priorities, fresh_parts};
use crate::pool_job::{Holder, PoolJob, fresh_jobs};
use crate::pool_take::PoolTake;
use crate::posting::Posting;
use crate::task_lists::TaskLists;
use delayed_manager::{Delayed, Ripening};
use sequence_queue::Rank;
use shutdown_phase::StillBlocked;
use std::alloc::{AllocError, Global};
use task_base::{
    Behaviour, Cell, Key, NotYet, Phase, Place, Policy, Priority, RunnerId, Scope, Script, SeatNo,
    SeqId, TaskId, TaskSource,
};
use task_runners::RunnerTable;
use task_sequence::Sequences;
use task_tracker::Tracker;
use task_traits::{effective, forbids};

/// The pool of threads (Chromium's `thread_pool/thread_pool_impl.h`): which work may start now, by priority, order,
/// limits, policy, blocking scopes, time and phase. The seats that take its work are numbers, from 1; moments are in
/// microseconds. It knows of no thread, and runs nothing itself.
///
/// A call stands for the entry of its kind in the history. All memory is taken by `new`. A post, a take, an end, a scope, a
/// policy and each call on a job take time logarithmic in the number of runners, tasks and jobs at most; a tick besides for
/// each task that ripens, and `reprio` for each task of the runner that waits, or has waited since its last change;
/// `is_any_ready` and `idle` look at each seat that a runner states, and `start_shutdown` at each runner, task and job.
pub struct Pool {
    runners: RunnerTable,
    /// The present priority of each runner.
    priorities: Vec<Priority>,
    sequences: Sequences,
    lanes: Lanes,
    /// The tasks of each parallel runner that wait, and maybe some that have waited; the last list is a spare one.
    lists: TaskLists,
    /// The workers that answer for all where it is asked whether one may take a source.
    representatives: Vec<SeatNo>,
    groups: Groups,
    delayed: Delayed,
    tracker: Tracker,
    /// How each task was posted.
    postings: Vec<Option<Posting>>,
    /// The task that each seat runs.
    seats: Vec<Option<TaskId>>,
    /// The items of each job, and how it was posted.
    jobs: Vec<PoolJob>,
    /// The job that each seat is inside.
    holders: Vec<Option<Holder>>,
    /// The moment of the last tick.
    moment: u64,
}

impl Drop for Pool {
    /// A crate that drops a pool, or what has one inside, goes by this code, and proves nothing of what lies in it.
    fn drop(self) {
        let Pool {
            runners: _,
            priorities: _,
            sequences: _,
            lanes: _,
            lists: _,
            representatives: _,
            groups: _,
            delayed: _,
            tracker: _,
            postings: _,
            seats: _,
            jobs: _,
            holders: _,
            moment: _,
        } = self;
    }
}

impl Pool {
    /// The pool of a script at the start of its history. The error is want of memory.
    pub fn new(alloc: Global, script: &Script) -> Result<Pool, AllocError>
        requires { IsPoolScript script.now }
        ensures { IfOk result (λ pool. StandsFor script.now [] pool) }
    {
        let tasks = script.tasks.len() as u32;
        let (runners, sequences, lanes, delayed) = fresh_parts(alloc, script, tasks)?;
        let priorities = first_priorities(alloc, script)?;
        let representatives = representatives(alloc, script)?;
        let lists = TaskLists::new(alloc, script.runners.len() + 1, tasks as usize)?;
        let jobs = fresh_jobs(alloc, script)?;
        let (postings, seats, holders) = empty_places(
            alloc,
            tasks as usize,
            script.workers as usize + 1,
        )?;
        Ok(Pool {
            runners,
            priorities,
            sequences,
            lanes,
            lists,
            representatives,
            groups: Groups::new(script),
            delayed,
            tracker: Tracker::new(),
            postings,
            seats,
            jobs,
            holders,
            moment: 0,
        })
    }

    /// The driver, or a task, posts a task to a runner, with a delay in microseconds. Answers whether it was accepted: once
    /// shutdown was started, block work without a delay alone is, and once it is done nothing.
    pub fn post(&mut self, place: Place, task: TaskId, runner: RunnerId, delay: u64) -> bool
        requires { (script : Plan) × (past : List Entry) × CanPost script past self.old place task runner delay }
        ensures reply { (script : Plan) (past : List Entry) → CanPost script past self.old place task runner delay
            → result ≡ not (is_refused script past runner delay) }
        ensures stands { (script : Plan) (past : List Entry) (seat : ℕ) → CanPost script past self.old place task runner delay
            → StandsFor script (after_post past seat task runner delay result) self.new }
    {
        let posting = Posting {
            runner,
            effective: effective(self.runners.traits_of(runner).behaviour, delay > 0),
        };
        if !self.tracker.accept(posting.effective) {
            return false;
        }
        self.postings[task as usize] = Some(posting);
        if delay > 0 {
            self.delayed.add(self.moment + delay, place, task);
        } else {
            let key = Key {
                place,
                ripe: 0,
                post: place,
            };
            self.arrive(task, posting, key);
        }
        true
    }

    /// The driver has read the clock: the moment, in microseconds, is not before the last one. Tasks that have become ripe may
    /// be taken from now on, unless shutdown was started.
    pub fn tick(&mut self, place: Place, moment: u64)
        requires { (script : Plan) × (past : List Entry) × CanTick script past self.old place moment }
        ensures { (script : Plan) (past : List Entry) (seat : ℕ) → CanTick script past self.old place moment
            → StandsFor script (after_tick past seat moment) self.new }
    {
        self.moment = moment;
        self.groups.tick(moment);
        self.ripen_all(place, moment);
    }

    /// A worker that runs nothing takes the head of its best source, or enters it where it is a job, unless it may take
    /// nothing. Once shutdown was started it may take block work alone, and once it is done nothing.
    pub fn take(&mut self, seat: SeatNo) -> PoolTake
        requires { (script : Plan) × (past : List Entry) × CanTake script past self.old seat }
        ensures answer { (script : Plan) (past : List Entry) → CanTake script past self.old seat → TakeAnswers script past seat result }
        ensures stands { (script : Plan) (past : List Entry) → CanTake script past self.old seat → StandsFor script (after_take past seat result) self.new }
    {
        match self.best(seat) {
            Some((TaskSource::Sequence(seq), _)) => self.start(seat, seq),
            Some((TaskSource::Job(job), _)) => self.start_item(seat, job),
            None => PoolTake::Nothing,
        }
    }

    /// A worker has ended its task, and brings the cell of its sequence home. It may at any time: what was taken is done to
    /// its end.
    pub fn end(&mut self, seat: SeatNo, cell: Cell)
        requires { (script : Plan) × (past : List Entry) × (w : Running) × RunsClosed script past self.old seat w }
        ensures { (script : Plan) (past : List Entry) (w : Running) → RunsClosed script past self.old seat w
            → StandsFor script (after_end past seat w.task cell) self.new }
    {
        let task = self.task_at(seat);
        let posting = self.posting(task);
        self.groups.ended(seat);
        self.tracker.ended(posting.effective);
        self.seats[seat as usize] = None;
        let seq = self.runners.seq_of(posting.runner, task);
        self.sequences.put_back(seq, cell);
        self.refresh(seq, posting.runner);
    }

    /// A worker's task has opened a blocking scope. It may at any time.
    pub fn enter(&mut self, seat: SeatNo, scope: Scope)
        requires { (script : Plan) × (past : List Entry) × (w : Running) × RunsClosed script past self.old seat w }
        ensures { (script : Plan) (past : List Entry) (w : Running) → RunsClosed script past self.old seat w
            → StandsFor script (after_enter past seat w.task scope) self.new }
    {
        self.groups.enter_scope(seat, scope);
    }

    /// A worker's task has closed its blocking scope. It may at any time.
    pub fn leave(&mut self, seat: SeatNo)
        requires { (script : Plan) × (past : List Entry) × (w : Running) × (opened : OpenScope) × RunsOpen script past self.old seat w opened }
        ensures { (script : Plan) (past : List Entry) (w : Running) (opened : OpenScope) → RunsOpen script past self.old seat w opened
            → StandsFor script (after_leave past seat w.task) self.new }
    {
        self.groups.leave_scope(seat);
    }

    /// The driver puts another policy in force, which has an effect until shutdown starts.
    pub fn policy(&mut self, policy: Policy)
        ensures { (script : Plan) (past : List Entry) (seat : ℕ) → StandsFor script past self.old → StandsFor script (after_policy past seat policy) self.new }
    {
        self.tracker.set_policy(policy);
    }

    /// The driver gives a runner another priority: those of its sequences that wait go by it from now on; what runs counts as
    /// it was taken. Constant time where the runner has this priority. Else a sequenced or a single-thread runner has its one
    /// sequence given its place anew, in logarithmic time at most. Of a parallel runner it looks at each task that waits, and
    /// once at each that has stopped waiting since its last change: the sequence of one that waits is given its place anew, in
    /// logarithmic time at most, and in constant time where the heap has these sequences alone, in the order of their posts;
    /// for one that no longer waits it takes constant time.
    pub fn reprio(&mut self, runner: RunnerId, priority: Priority)
        requires { (script : Plan) × (past : List Entry) × KnowsRunner script past self.old runner }
        ensures { (script : Plan) (past : List Entry) (seat : ℕ) → KnowsRunner script past self.old runner
            → StandsFor script (after_reprio past seat runner priority) self.new }
    {
        if self.priorities[runner as usize] == priority {
            return;
        }
        self.priorities[runner as usize] = priority;
        self.place_anew(runner);
    }

    /// Whether no worker runs a task or is inside a job, and none may take a source. The error says how many do, and
    /// whether one may take more.
    pub fn idle(&self) -> Result<(), NotYet>
        requires { (script : Plan) × (past : List Entry) × StandsFor script past self.now }
        ensures ok { (script : Plan) (past : List Entry) → StandsFor script past self.now
            → IsOk result ↔ ((running_tasks script past ≡ 0) × (is_any_ready script past ≡ false)) }
        ensures not_yet { (script : Plan) (past : List Entry) → StandsFor script past self.now
            → IfErr result (λ not_yet. (not_yet.running ≡ running_tasks script past) × (not_yet.ready ≡ is_any_ready script past)) }
    {
        let running = self.groups.running();
        let ready = self.is_any_ready();
        if running > 0 || ready {
            return Err(NotYet { running, ready });
        }
        Ok(())
    }

    /// The moment of the last tick, in microseconds.
    pub fn moment(&self) -> u64
        ensures { (script : Plan) (past : List Entry) → StandsFor script past self.now → result ≡ now_of past }
    {
        self.moment
    }

    /// The task of the pool that a seat runs, if it runs one.
    pub fn task_of(&self, seat: SeatNo) -> Option<TaskId>
        ensures { (script : Plan) (past : List Entry) → StandsFor script past self.now → seat ≤ script.workers
            → result ≡ option_map (λ w. w.task) (pool_running past seat) }
    {
        *self.seats.get(seat as usize)?
    }

    /// Whether the cell of the sequence of a runner's task is out: from a take of one of its tasks to the end of that.
    pub fn is_cell_out(&self, runner: RunnerId, task: TaskId) -> bool
        requires { (script : Plan) × (past : List Entry) × KnowsTask script past self.now runner task }
        ensures { (script : Plan) (past : List Entry) → KnowsTask script past self.now runner task
            → result ≡ runs_sequence script past (sequence_of script runner task) }
    {
        !self.sequences.is_home(self.runners.seq_of(runner, task))
    }

    /// The driver starts shutdown, once: from now on only block work is accepted and may start, and the policy has no effect.
    pub fn start_shutdown(&mut self)
        requires { (script : Plan) × (past : List Entry) × IsInPhase script past self.old Phase.Running }
        ensures { (script : Plan) (past : List Entry) (seat : ℕ) → IsInPhase script past self.old Phase.Running
            → StandsFor script (after_shutdown past seat) self.new }
    {
        self.tracker.start_shutdown();
        self.sequences.purge(Phase::Started);
        self.refresh_all();
        self.refresh_jobs();
    }

    /// How many pieces of work shutdown waits for, or would wait for if it started now. Constant time.
    pub fn blockers(&self) -> u32
        requires { (script : Plan) × (past : List Entry) × StandsFor script past self.now }
        ensures { (script : Plan) (past : List Entry) → StandsFor script past self.now → result ≡ blockers_of script past }
    {
        self.tracker.blockers()
    }

    /// The driver ends shutdown, which it has started, unless something still blocks it. From then on nothing is accepted, and
    /// nothing starts.
    pub fn try_done(&mut self) -> Result<(), StillBlocked>
        requires { (script : Plan) × (past : List Entry) × IsInPhase script past self.old Phase.Started }
        ensures ok { (script : Plan) (past : List Entry) → IsInPhase script past self.old Phase.Started → IsOk result ↔ (blockers_of script past ≡ 0) }
        ensures blocked { (script : Plan) (past : List Entry) → IsInPhase script past self.old Phase.Started
            → IfErr result (λ blocked. blocked.count ≡ blockers_of script past) }
        ensures done { (script : Plan) (past : List Entry) (seat : ℕ) → IsInPhase script past self.old Phase.Started
            → OnOk result (StandsFor script (after_done past seat) self.new) }
        ensures unchanged { OnErr result (self.new ≡ self.old) }
    {
        self.tracker.try_done()
    }

    // Takes the head of a sequence for a seat.
    fn start(&mut self, seat: SeatNo, seq: SeqId) -> PoolTake
        requires { (script : Plan) × (past : List Entry) × IsChosen script past self.old seat seq }
        ensures answer { (script : Plan) (past : List Entry) → IsChosen script past self.old seat seq → TakeAnswers script past seat result }
        ensures stands { (script : Plan) (past : List Entry) → IsChosen script past self.old seat seq
            → StandsFor script (after_take past seat result) self.new }
    {
        let (task, cell) = self.sequences.take_out(seq).unwrap();
        let posting = self.posting(task);
        self.refresh(seq, posting.runner);
        let priority = self.priorities[posting.runner as usize];
        self.groups
            .started(self.runners.background(priority), seat, priority);
        self.tracker.started(posting.effective);
        self.seats[seat as usize] = Some(task);
        PoolTake::Task {
            task,
            runner: posting.runner,
            cell,
        }
    }

    // Puts each delayed task that is ripe at a tick of this moment at the end of its sequence, if it may still start.
    fn ripen_all(&mut self, place: Place, moment: u64)
        requires { (script : Plan) × (past : List Entry) × IsInTick script past self.old place moment }
        ensures { (script : Plan) (past : List Entry) (seat : ℕ) → IsInTick script past self.old place moment
            → StandsFor script (after_tick past seat moment) self.new }
    {
        while let Some(ripe) = self.delayed.ripen(moment) {
            self.ripen(place, ripe);
        }
    }

    // Puts a delayed task at the end of its sequence at the tick that makes it ripe, if it may still start.
    fn ripen(&mut self, place: Place, ripe: Ripening)
        requires { (posting : Posting) × CanRipen self.old place ripe posting }
        ensures { (posting : Posting) → CanRipen self.old place ripe posting → self.new ≡ ripened self.old place ripe posting }
    {
        let posting = self.posting(ripe.task);
        if !forbids(self.tracker.phase(), posting.effective) {
            let key = Key {
                place,
                ripe: ripe.ripe,
                post: ripe.post,
            };
            self.arrive(ripe.task, posting, key);
        }
    }

    // Puts a task at the end of its sequence.
    fn arrive(&mut self, task: TaskId, posting: Posting, key: Key)
        requires { CanArrive self.old task posting key }
        ensures { self.new ≡ arrived self.old task posting key }
    {
        let seq = self.runners.seq_of(posting.runner, task);
        self.sequences.push(seq, task, key, posting.effective);
        self.list(seq, task, posting.runner);
        self.refresh(seq, posting.runner);
    }

    // Puts a task into the list of its runner, unless its sequence is the runner's own.
    fn list(&mut self, seq: SeqId, task: TaskId, runner: RunnerId)
        requires there { runner < length self.old.lists.lines }
        requires known { task < length self.old.lists.after }
        ensures { self.new ≡ record self.old { lists = if seq == runner then self.old.lists else with_task self.old.lists runner task } }
    {
        if seq != runner {
            self.lists.push(runner as usize, task);
        }
    }

    // The task that a seat runs.
    fn task_at(&self, seat: SeatNo) -> TaskId
        requires { (task : ℕ) × (slice_get self.now.seats.items seat ≡ Some (Some task)) }
        ensures { slice_get self.now.seats.items seat ≡ Some (Some result) }
    {
        self.seats[seat as usize].unwrap()
    }

    // How a task was posted.
    fn posting(&self, task: TaskId) -> Posting
        requires { (posting : Posting) × (slice_get self.now.postings.items task ≡ Some (Some posting)) }
        ensures { slice_get self.now.postings.items task ≡ Some (Some result) }
    {
        self.postings[task as usize].unwrap()
    }
}
