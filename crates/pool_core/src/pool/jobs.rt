ghost use Rattle.std.specs.Prelude.{◌≡◌, ◌<◌, ◌↔◌, not, true, false, length, slice_get, IsOk, IfOk, IfErr, Some, None};
ghost use Rattle.task_base.specs.Plan.{Plan};
ghost use Rattle.task_base.specs.declared.entry.Entry.{Entry};
ghost use Rattle.task_model.specs.Jobs.{is_empty, may_enter};
ghost use Rattle.task_model.specs.Refusal.{is_job_forbidden};
ghost use Rattle.task_model.specs.Capacity.{priority_of_job};
ghost use Rattle.task_model.specs.Seats.{Holding, inside};
ghost use Rattle.task_model.specs.Sources.{makes_way, waiting, next_item};
ghost use Rattle.std.specs.List.{list_any};
ghost use Rattle.std.specs.Prelude.{ℕ, IsSomeAnd, ◌≤◌, ◌^◌, List, nat_lt, ◌&&◌};
ghost use Rattle.list_laws.specs.Lists.{holds_of};
ghost use Rattle.task_base.specs.Groups.{importance};
ghost use Rattle.task_base.specs.declared.limits.TheConstants.{MOST_WORKERS};
ghost use Rattle.task_traits.specs.Behaviour.{forbids};
ghost use Rattle.task_tracker.specs.Tracked.{skip_share};
ghost use Rattle.thread_group.specs.Group.{has_room, work_at};
ghost use Rattle.pool_core.specs.Groups.{group_at, group_in, in_background};
ghost use Rattle.pool_core.specs.declared.pool_job.Holder.{Holder};
ghost use Rattle.pool_core.specs.Calls.{TakeAnswers, after_take};
ghost use Rattle.pool_core.specs.JobCalls.{CanEnter, CanJoin, CanPostJob, CanStep, IsJobChosen, KnowsJob, after_entering, after_job_cancel, after_job_post, after_step, entering, has_to_leave, joined_of, lets_in};
ghost use Rattle.pool_core.specs.JobState.{HaveJobPlaces, HasJobPlace, is_better, job_left, job_of, job_refreshed, jobs_refreshed_below, settled, settled_share, with_item_ended, with_item_started};
ghost use Rattle.pool_core.specs.StandsFor.{StandsFor};

use crate::pool::Pool;
use crate::pool_job::{Holder, JobPost};
use crate::pool_take::PoolTake;
use sequence_queue::Rank;
use task_base::{Behaviour, JobId, JobReply, NotYet, Place, Priority, SeatNo, TaskSource};
use task_traits::forbids;

// Jobs: which seats are inside, and what they hold.
impl Pool {
    /// The driver posts a job. Answers whether it was accepted: once shutdown was started a block job alone is, and once it is
    /// done none.
    pub fn job_post(&mut self, place: Place, job: JobId) -> bool
        requires { (script : Plan) × (past : List Entry) × CanPostJob script past self.old place job }
        ensures reply { (script : Plan) (past : List Entry) → CanPostJob script past self.old place job
            → result ≡ not (is_job_forbidden script past job) }
        ensures stands { (script : Plan) (past : List Entry) (seat : ℕ) → CanPostJob script past self.old place job
            → StandsFor script (after_job_post past seat job result) self.new }
    {
        let ok = self.tracker.accept(self.jobs[job as usize].behaviour);
        self.jobs[job as usize].post = Some(JobPost { place, ok });
        self.settle(job, ok);
        self.refresh_job(job);
        ok
    }

    /// The driver, which joins a job, enters it where it may, and gets its number there and an item. Policy and limits
    /// don't bind it; once shutdown was started it may enter a block job alone.
    pub fn job_take(&mut self, job: JobId) -> Option<(u32, u32)>
        requires { (script : Plan) × (past : List Entry) × CanJoin script past self.old job }
        ensures answer { (script : Plan) (past : List Entry) → CanJoin script past self.old job → result ≡ entering script past job }
        ensures stands { (script : Plan) (past : List Entry) → CanJoin script past self.old job
            → StandsFor script (after_entering past 0 job result) self.new }
    {
        self.enter_job(0, job)
    }

    /// A seat inside a job has ended its item with a value. It goes on with the item that is answered, the least
    /// unclaimed one, or leaves: where none is unclaimed, the job is cancelled, the phase forbids it, or a worker makes
    /// way for better work.
    pub fn job_step(&mut self, seat: SeatNo, value: u64) -> Option<u32>
        requires { (script : Plan) × (past : List Entry) × (h : Holding) × CanStep script past self.old seat h }
        ensures answer { (script : Plan) (past : List Entry) (h : Holding) → CanStep script past self.old seat h
            → result ≡ next_item script past seat h.job }
        ensures stands { (script : Plan) (past : List Entry) (h : Holding) → CanStep script past self.old seat h
            → StandsFor script (after_step past seat h value result) self.new }
    {
        let Holder { job, id } = self.holder(seat);
        let leave = self.has_to_leave(seat, job);
        let next = self.jobs[job as usize].done(id, value, leave);
        if next.is_none() {
            self.leave_job(seat, job);
        }
        self.refresh_job(job);
        next
    }

    /// The driver cancels a job, at any time: nobody enters any more, and who is inside leaves at the end of its item.
    pub fn job_cancel(&mut self, job: JobId)
        requires { (script : Plan) × (past : List Entry) × KnowsJob script past self.old job }
        ensures { (script : Plan) (past : List Entry) (seat : ℕ) → KnowsJob script past self.old job
            → StandsFor script (after_job_cancel past seat job) self.new }
    {
        let was_open = self.jobs[job as usize].is_open();
        self.jobs[job as usize].source.cancel();
        self.settle(job, was_open);
        self.refresh_job(job);
    }

    /// The reply to a join, where nobody is inside and there is one. The error says how many are inside, and whether the
    /// driver may enter: not both are nothing, where the job was posted and by its own word somebody may be inside.
    pub fn joined(&self, job: JobId) -> Result<JobReply, NotYet>
        requires { (script : Plan) × (past : List Entry) × KnowsJob script past self.now job }
        ensures ok { (script : Plan) (past : List Entry) → KnowsJob script past self.now job
            → IfOk result (λ reply. joined_of script past job ≡ Some reply) }
        ensures not_yet { (script : Plan) (past : List Entry) → KnowsJob script past self.now job
            → IfErr result (λ not_yet. (joined_of script past job ≡ None) × (not_yet.running ≡ length (inside script past job))
            × (not_yet.ready ≡ may_enter script past job)) }
        ensures somebody { (script : Plan) (past : List Entry) → KnowsJob script past self.now job → lets_in script past job ≡ true
            → IfErr result (λ not_yet. not_yet.running ≡ 0 → not_yet.ready ≡ true) }
    {
        let phase = self.tracker.phase();
        let held = &self.jobs[job as usize];
        held.joined(phase).ok_or(NotYet {
            running: held.source.inside(),
            ready: held.may_enter(phase),
        })
    }

    /// Whether nobody is inside a job, as a cancel waits for. The error says how many are.
    pub fn cancelled(&self, job: JobId) -> Result<(), NotYet>
        requires { (script : Plan) × (past : List Entry) × KnowsJob script past self.now job }
        ensures ok { (script : Plan) (past : List Entry) → KnowsJob script past self.now job → IsOk result ↔ (is_empty script past job ≡ true) }
        ensures not_yet { (script : Plan) (past : List Entry) → KnowsJob script past self.now job
            → IfErr result (λ not_yet. (not_yet.running ≡ length (inside script past job)) × (not_yet.ready ≡ false)) }
    {
        let running = self.jobs[job as usize].source.inside();
        if running > 0 {
            return Err(NotYet {
                running,
                ready: false,
            });
        }
        Ok(())
    }

    // A worker enters the job that is its best source.
    pub(super) fn start_item(&mut self, seat: SeatNo, job: JobId) -> PoolTake
        requires { (script : Plan) × (past : List Entry) × IsJobChosen script past self.old seat job }
        ensures answer { (script : Plan) (past : List Entry) → IsJobChosen script past self.old seat job → TakeAnswers script past seat result }
        ensures stands { (script : Plan) (past : List Entry) → IsJobChosen script past self.old seat job
            → StandsFor script (after_take past seat result) self.new }
    {
        let (id, item) = self.enter_job(seat, job).unwrap();
        PoolTake::Item { job, id, item }
    }

    // A seat enters a job where it may, and gets its number there and an item.
    fn enter_job(&mut self, seat: SeatNo, job: JobId) -> Option<(u32, u32)>
        requires { (script : Plan) × (past : List Entry) × CanEnter script past self.old seat job }
        ensures answer { (script : Plan) (past : List Entry) → CanEnter script past self.old seat job → result ≡ entering script past job }
        ensures stands { (script : Plan) (past : List Entry) → CanEnter script past self.old seat job
            → StandsFor script (after_entering past seat job result) self.new }
    {
        let (id, item) = self.jobs[job as usize].enter(self.tracker.phase())?;
        let held = &self.jobs[job as usize];
        let (behaviour, priority) = (held.behaviour, held.priority);
        self.tracker.started(behaviour);
        self.holders[seat as usize] = Some(Holder { job, id });
        self.item_started(seat, priority);
        self.refresh_job(job);
        Some((id, item))
    }

    // A seat has ended its last item of a job.
    fn leave_job(&mut self, seat: SeatNo, job: JobId)
        requires there { job < length self.old.jobs.items }
        requires seated { seat < length self.old.holders.items }
        requires worker { seat ≤ MOST_WORKERS }
        requires works { 1 ≤ seat → IsSomeAnd (work_at (group_at self.old.groups seat) seat) (λ work. work.scope ≡ None) }
        requires counted { skip_share (job_of self.old job).behaviour ≤ self.old.tracker.skip_items }
        requires open { settled_share (job_of self.old job) true ≤ self.old.tracker.block_items }
        ensures { self.new ≡ job_left self.old seat job }
    {
        let behaviour = self.jobs[job as usize].behaviour;
        self.holders[seat as usize] = None;
        self.item_ended(seat);
        self.tracker.job_left(behaviour);
        self.settle(job, true);
    }

    // A worker's item is work of its group; the driver's is not.
    fn item_started(&mut self, seat: SeatNo, priority: Priority)
        requires worker { seat ≤ MOST_WORKERS }
        requires free { 1 ≤ seat → work_at (group_in self.old.groups (in_background self.old.runners priority)) seat ≡ None }
        ensures { self.new ≡ record self.old { groups = with_item_started self.old seat priority } }
    {
        if seat > 0 {
            self.groups
                .started(self.runners.background(priority), seat, priority);
        }
    }

    fn item_ended(&mut self, seat: SeatNo)
        requires worker { seat ≤ MOST_WORKERS }
        requires works { 1 ≤ seat → IsSomeAnd (work_at (group_at self.old.groups seat) seat) (λ work. work.scope ≡ None) }
        ensures { self.new ≡ record self.old { groups = with_item_ended self.old seat } }
    {
        if seat > 0 {
            self.groups.ended(seat);
        }
    }

    // Shutdown waits no more for a job that was open and is over.
    fn settle(&mut self, job: JobId, was_open: bool)
        requires there { job < length self.old.jobs.items }
        requires counted { settled_share (job_of self.old job) was_open ≤ self.old.tracker.block_items }
        ensures { self.new ≡ settled self.old job was_open }
    {
        let held = &self.jobs[job as usize];
        if was_open && !held.is_open() {
            self.tracker.job_over(held.behaviour);
        }
    }

    // Whether a seat leaves a job though it has more items: the phase forbids the job, or a worker makes way.
    fn has_to_leave(&self, seat: SeatNo, job: JobId) -> bool
        requires { (script : Plan) × (past : List Entry) × KnowsJob script past self.now job }
        ensures { (script : Plan) (past : List Entry) → KnowsJob script past self.now job → result ≡ has_to_leave script past seat job }
    {
        self.is_forbidden(job) || (seat > 0 && self.makes_way(job))
    }

    // Whether the phase forbids a job.
    fn is_forbidden(&self, job: JobId) -> bool
        requires { job < length self.now.jobs.items }
        ensures { result ≡ forbids self.now.tracker.phase (job_of self.now job).behaviour }
    {
        forbids(self.tracker.phase(), self.jobs[job as usize].behaviour)
    }

    // Whether a worker at a job makes way: its group runs at least what it may, and better work of the group waits.
    fn makes_way(&self, job: JobId) -> bool
        requires { (script : Plan) × (past : List Entry) × KnowsJob script past self.now job }
        ensures { (script : Plan) (past : List Entry) → KnowsJob script past self.now job
            → result ≡ makes_way script past (priority_of_job script job) }
    {
        let priority = self.jobs[job as usize].priority;
        self.is_full(priority) && self.has_better(priority)
    }

    // Whether work of this priority is the foreground group's, and that runs at least what it may. All work of the
    // background group is of one priority.
    fn is_full(&self, priority: Priority) -> bool
        ensures { result ≡ (not (in_background self.now.runners priority) && not (has_room self.now.groups.foreground Priority.UserVisible)) }
    {
        !self.runners.background(priority) && !self.groups.has_room(false, Priority::UserVisible)
    }

    // Whether a source that any worker may take waits with a higher priority. Best-effort work is of no higher one.
    fn has_better(&self, priority: Priority) -> bool
        requires { (script : Plan) × (past : List Entry) × StandsFor script past self.now }
        ensures { (script : Plan) (past : List Entry) → StandsFor script past self.now
            → result ≡ list_any (is_better priority) (waiting script past) }
    {
        let best = self.lanes.best(0, false);
        self.tracker
            .may_run(Priority::UserVisible, Behaviour::BlockShutdown)
            && is_higher(best, priority)
    }

    // The job that a seat is inside, and its number there.
    fn holder(&self, seat: SeatNo) -> Holder
        requires { (holder : Holder) × (slice_get self.now.holders.items seat ≡ Some (Some holder)) }
        ensures { slice_get self.now.holders.items seat ≡ Some (Some result) }
    {
        self.holders[seat as usize].unwrap()
    }

    // Gives a job its place among the sources that wait.
    fn refresh_job(&mut self, job: JobId)
        requires { HasJobPlace self.old job }
        ensures { self.new ≡ job_refreshed self.old job }
    {
        let rank = self.jobs[job as usize].rank(self.tracker.phase());
        self.lanes.put(0, TaskSource::Job(job), rank);
    }

    // Gives each job its place among the sources that wait.
    pub(super) fn refresh_jobs(&mut self)
        requires fit { length self.old.jobs.items < 2 ^ 32 }
        requires places { HaveJobPlaces self.old }
        ensures { self.new ≡ jobs_refreshed_below self.old (length self.old.jobs.items) }
    {
        for job in 0..self.jobs.len() {
            self.refresh_job(job as JobId);
        }
    }
}

// Whether there is a source, of a higher priority.
fn is_higher(best: Option<(TaskSource, Rank)>, priority: Priority) -> bool
    ensures { result ≡ holds_of (λ b. nat_lt (importance priority) (importance b.1.priority)) best }
{
    match best {
        Some((_, rank)) => rank.priority > priority,
        None => false,
    }
}
