ghost use Rattle.std.specs.Prelude.{◌≡◌, ℕ, ◌<◌, ◌≤◌, ◌↔◌, [], ◌∷◌, length, not, Bool, true, is_some, IsOk, IfOk, IfErr, IfSome, OnOk, OnErr, Some};
ghost use Rattle.std.specs.Option.{option_map};
ghost use Rattle.script_model.specs.Laws.Sound.{IsSound};
ghost use Rattle.env_core.specs.Agenda.{counted};
ghost use Rattle.env_core.specs.Calls.{IsWantedNext, IsFreeWorker, IsNextAct, CanEnd};
ghost use Rattle.env_core.specs.Calls.{EntersAct, lets_in};
ghost use Rattle.env_core.specs.Drawer.{is_in_drawer};
ghost use Rattle.env_core.specs.Ledger.{MayEnter};
ghost use Rattle.env_core.specs.Views.{Enters, spare_of};
ghost use Rattle.env_core.specs.Waits.{may_go_on};
ghost use Rattle.hist_model.specs.Moments.{moment_behind};
ghost use Rattle.hist_model.specs.Open.{IsClosed};
ghost use Rattle.hist_model.specs.Script.{current, is_finished};
ghost use Rattle.hist_model.specs.Views.{own_entries};
ghost use Rattle.pool_core.specs.Calls.{running_tasks, is_any_ready, is_own};
ghost use Rattle.task_base.specs.Runners.{sequence_of};
ghost use Rattle.task_model.specs.Blockers.{blockers_of};
ghost use Rattle.task_model.specs.Phase.{phase_of};
ghost use Rattle.task_model.specs.Refusal.{is_refused};
ghost use Rattle.task_model.specs.Seats.{runs_sequence};
ghost use Rattle.task_traits.specs.declared.phase.Phase.TheVariants as phases;
ghost use Rattle.task_model.specs.Sources.{best_of};
ghost use Rattle.task_model.specs.Time.{now_of};

mod jobs;
mod queues;

use crate::agenda::Shift;
use crate::drawer::{drawer, keep_if, take_body};
use crate::ledger::Ledger;
use hist_model::Chronicle;
use pool_core::{Pool, PoolTake};
use sequence_manager::Manager;
use shutdown_phase::StillBlocked;
use std::alloc::{AllocError, Global};
use std::marker::Model;
use task_base::{
    Action, Entry, Kind, LAST_MOMENT, NotYet, Policy, Priority, Rows, RunnerId, Scope, Script,
    SeatNo, TaskId,
};
use task_body::{Act, Assignment, JobPass, Taken, TaskBody};

/// The environment of one run (Chromium's `base/task` as a browser holds it): the script, the bodies of the tasks, the
/// pool, the main queues, and the history.
///
/// Each call is one event: it adds one entry to the history, or none. All memory is taken by `open`. A seat is 0 for
/// the driver, which performs the script, and 1 and above for the workers.
pub struct Env<B: TaskBody> {
    /// The script, the history, and how far the driver has come.
    ledger: Ledger,
    pool: Pool,
    main: Manager,
    /// The bodies of the tasks that may still be taken.
    bodies: Vec<Option<Box<B>>>,
}

impl<B: TaskBody> Drop for Env<B> {
    /// A crate that drops an environment, or what has one inside, goes by this code, and proves nothing of what lies in it.
    fn drop(self) {
        let Env {
            ledger: _,
            pool: _,
            main: _,
            bodies: _,
        } = self;
    }
}

impl<B: TaskBody> Model for Env<B> {
    ghost use Rattle.env_core.specs.Views.{EnvView};
    ghost use Rattle.env_core.specs.Holds.{Holds};

    ghost Value = { EnvView };

    ghost view = { λ e. e.ledger };

    ghost invariant = { λ e. Holds e.bodies.items (λ body. B.whole body.value) (λ body. B.rest body.value) e.ledger e.pool e.main };
}

impl<B: TaskBody> Chronicle for Env<B> {
    ghost history = { λ e. e.history };

    ghost basis = { λ e. e.script };
}

impl<B: TaskBody> Env<B> {
    ghost use Rattle.env_core.specs.Calls.{AreFresh, TakeGives, IsIdle};

    /// The environment of a script, at the start of its history, with a body for each task: body i is
    /// that of task i, and none of its steps is done. The error is want of memory, and nothing is left made.
    pub fn open(alloc: Global, script: Script, bodies: Vec<Box<B>>) -> Result<Env<B>, AllocError>
        requires plan { IsSound script }
        requires bodies { AreFresh bodies.items (λ body. B.whole body.value) (λ body. B.rest body.value) script }
        ensures script { IfOk result (λ env. env.script ≡ script) }
        ensures empty { IfOk result (λ env. env.history ≡ []) }
    {
        let pool = Pool::new(alloc, &script)?;
        let main = Manager::new(alloc, &script)?;
        let bodies = drawer(alloc, bodies)?;
        let ledger = Ledger::open(alloc, script)?;
        Ok(Env {
            ledger,
            pool,
            main,
            bodies,
        })
    }

    /// The driver posts a task to a runner, with a delay in microseconds. A refused post drops the task's body.
    pub fn post(&mut self, seat: SeatNo, task: TaskId, runner: RunnerId, delay: u64) -> bool
        requires { (ok : Bool) → IsWantedNext self.old seat (Kind.Post task runner delay ok) }
        ensures reply { result ≡ not (is_refused self.old.script self.old.history runner delay) }
        ensures enters { Enters self.old self.new seat (Kind.Post task runner delay result) }
    {
        self.enter_post(seat, task, runner, delay, Shift::Counts)
    }

    /// The driver has read the clock, in microseconds. Answers the moment that is entered.
    pub fn tick(&mut self, seat: SeatNo, reading: u64) -> u64
        requires { (now : ℕ) → IsWantedNext self.old seat (Kind.Tick now) }
        ensures moment { result ≡ moment_behind (now_of self.old.history) reading }
        ensures enters { Enters self.old self.new seat (Kind.Tick result) }
    {
        let now = reading.max(self.pool.moment()).min(LAST_MOMENT);
        self.pool.tick(self.ledger.len(), now);
        self.main.tick(now);
        self.ledger.enter(seat, Kind::Tick { now }, Shift::Counts);
        now
    }

    /// The driver puts another policy in force.
    pub fn policy(&mut self, seat: SeatNo, policy: Policy)
        requires { IsWantedNext self.old seat (Kind.Policy policy) }
        ensures { Enters self.old self.new seat (Kind.Policy policy) }
    {
        self.pool.policy(policy);
        self.ledger
            .enter(seat, Kind::Policy { policy }, Shift::Counts);
    }

    /// The driver gives a runner another priority: its tasks that wait go by it from now on, and what runs counts as it was
    /// taken. It looks at each task once, and gives the sequence of each task of the runner its place again, in
    /// logarithmic time.
    pub fn reprio(&mut self, seat: SeatNo, runner: RunnerId, priority: Priority)
        requires { IsWantedNext self.old seat (Kind.Reprio runner priority) }
        ensures { Enters self.old self.new seat (Kind.Reprio runner priority) }
    {
        self.pool.reprio(runner, priority);
        self.ledger
            .enter(seat, Kind::Reprio { runner, priority }, Shift::Counts);
    }

    /// A worker asks for work. A body leaves the drawer as its task is taken.
    pub fn take(&mut self, seat: SeatNo) -> Taken<Assignment<B>>
        requires { IsFreeWorker self.old seat }
        ensures { TakeGives self.old self.new seat result }
    {
        if self.ledger.is_finished() {
            return Taken::Over;
        }
        match self.pool.take(seat) {
            PoolTake::Nothing => Taken::Nothing,
            PoolTake::Item { job, id, item } => {
                self.ledger
                    .enter(seat, Kind::JobTake { job, id, item }, Shift::Stays);
                Taken::Item(JobPass::new(job, id, item))
            }
            PoolTake::Task { task, runner, cell } => {
                let body = take_body(&mut self.bodies, task);
                self.ledger.enter(
                    seat,
                    Kind::Take {
                        task,
                        runner,
                        found: cell.value(),
                    },
                    Shift::Stays,
                );
                Taken::Task(Assignment::new(task, runner, cell, body))
            }
        }
    }

    /// A task does its next act step. False where that is a post that is refused, which drops the body of the task that
    /// was to be posted.
    pub fn act(&mut self, seat: SeatNo, act: Act) -> bool
        requires { IsNextAct self.old seat act }
        ensures reply { result ≡ lets_in self.old act }
        ensures enters { EntersAct self.old self.new seat act result }
    {
        match act {
            Act::Post {
                task,
                runner,
                delay,
            } => self.enter_post(seat, task, runner, delay, Shift::Stays),
            Act::Main { task, queue, delay } => self.enter_main_post(
                seat,
                task,
                queue,
                delay,
                Shift::Stays,
            ),
            Act::Enter(scope) => self.enter(seat, scope),
            Act::Leave => self.leave(seat),
            Act::Did(_) | Act::Finished => {
                // What is not an act step makes no entry.
                unreachable!()
            }
        }
    }

    /// A worker has ended its task: the cell goes home with what the task left. Answers the body, which is done.
    pub fn end(&mut self, seat: SeatNo, work: Assignment<B>) -> Box<B>
        requires { CanEnd self.old seat work }
        ensures { Enters self.old self.new seat (Kind.End work.task work.value) }
    {
        let task = work.task();
        let (cell, body) = work.split_up();
        let left = cell.value();
        self.pool.end(seat, cell);
        self.ledger
            .enter(seat, Kind::End { task, left }, Shift::Stays);
        body
    }

    /// The driver waits for the pool: it goes on where no worker runs a task or is inside a job, and none may take a source.
    /// The error says how many do, and whether one may take more.
    pub fn try_idle(&mut self, seat: SeatNo) -> Result<(), NotYet>
        requires { IsWantedNext self.old seat Kind.Idle }
        ensures ok { IsOk result ↔ IsIdle self.old }
        ensures not_yet { IfErr result (λ not_yet. (not_yet.running ≡ running_tasks self.old.script self.old.history)
            × (not_yet.ready ≡ is_any_ready self.old.script self.old.history)) }
        ensures enters { OnOk result (Enters self.old self.new seat Kind.Idle) }
        ensures unchanged { OnErr result (self.new ≡ self.old) }
    {
        self.pool.idle()?;
        self.ledger.enter(seat, Kind::Idle, Shift::Counts);
        Ok(())
    }

    /// The driver starts shutdown: from now on only block work is accepted and may start.
    pub fn start_shutdown(&mut self, seat: SeatNo)
        requires { IsWantedNext self.old seat Kind.Shutdown }
        ensures enters { Enters self.old self.new seat Kind.Shutdown }
        ensures started { phase_of self.new.history ≡ phases.Started }
    {
        self.pool.start_shutdown();
        self.ledger.enter(seat, Kind::Shutdown, Shift::Counts);
    }

    /// The driver ends shutdown, unless something still blocks it.
    pub fn try_done(&mut self, seat: SeatNo) -> Result<(), StillBlocked>
        requires { IsWantedNext self.old seat Kind.Done }
        ensures ok { IsOk result ↔ (blockers_of self.old.script self.old.history ≡ 0) }
        ensures blocked { IfErr result (λ blocked. blocked.count ≡ blockers_of self.old.script self.old.history) }
        ensures enters { OnOk result (Enters self.old self.new seat Kind.Done) }
        ensures unchanged { OnErr result (self.new ≡ self.old) }
    {
        self.pool.try_done()?;
        self.ledger.enter(seat, Kind::Done, Shift::Counts);
        Ok(())
    }

    /// The action that the driver is at. None where the script is finished.
    pub fn action(&self) -> Option<Action>
        ensures closed { IsClosed self.now.script }
        ensures action { result ≡ option_map (λ c. c.action) (current self.now.script (own_entries 0 self.now.history)) }
    {
        self.ledger.action()
    }

    /// How many entries that count the driver's action has made: of a pump those at which a main task ended, of a join its
    /// reply, and of each other action all.
    pub fn made(&self) -> u32
        ensures { IfSome (current self.now.script (own_entries 0 self.now.history)) (λ c. result ≡ counted (c.action ∷ []) c.made) }
    {
        self.ledger.made()
    }

    /// Whether the driver has performed the script to its end.
    pub fn is_finished(&self) -> bool
        ensures { result ≡ is_finished self.now.script self.now.history }
    {
        self.ledger.is_finished()
    }

    /// Whether what the driver's action waits for has come. True where it waits for nothing.
    pub fn may_go_on(&self) -> bool
        ensures { result ≡ may_go_on self.now.script self.now.history }
    {
        let made = self.ledger.made();
        let Some(action) = self.ledger.action() else {
            return true;
        };
        match action {
            Action::Flush => self.pool.idle().is_ok(),
            Action::Join { job } => match self.pool.joined(job) {
                Ok(_) => true,
                Err(not_yet) => not_yet.ready,
            },
            Action::Cancel { job } => made == 0 || self.pool.cancelled(job).is_ok(),
            Action::Shutdown => made == 0 || self.pool.blockers() == 0,
            _ => true,
        }
    }

    /// Whether there is a source that a seat may take now, which it would get if it runs nothing.
    pub fn has_work(&self, seat: SeatNo) -> bool
        requires { seat ≤ self.now.script.workers }
        ensures { result ≡ is_some (best_of self.now.script self.now.history seat) }
    {
        self.pool.has_work(seat)
    }

    /// Whether the source that a seat may take now, and would get if it runs nothing, is one that no other seat may take.
    pub fn has_own_work(&self, seat: SeatNo) -> bool
        requires { seat ≤ self.now.script.workers }
        ensures { result ≡ is_own (best_of self.now.script self.now.history seat) }
    {
        self.pool.has_own_work(seat)
    }

    /// Whether there is a source that some worker may take now.
    pub fn is_any_ready(&self) -> bool
        ensures { result ≡ is_any_ready self.now.script self.now.history }
    {
        self.pool.is_any_ready()
    }

    /// Whether the drawer has the body of a task: until the task is taken, or its post refused.
    pub fn has_body(&self, task: TaskId) -> bool
        requires { task < length self.now.script.tasks }
        ensures { result ≡ is_in_drawer self.now.history task }
    {
        self.bodies[task as usize].is_some()
    }

    /// Whether the cell of the sequence of a runner's task is out: from a take of one of its tasks to the end of that.
    pub fn is_cell_out(&self, runner: RunnerId, task: TaskId) -> bool
        requires runner { runner < length self.now.script.runners }
        requires task { task < length self.now.script.tasks }
        ensures { result ≡ runs_sequence self.now.script self.now.history (sequence_of self.now.script runner task) }
    {
        self.pool.is_cell_out(runner, task)
    }

    /// The history, with the room that is left for further entries. What bodies are left are dropped.
    pub fn into_log(self) -> Rows<Entry>
        ensures items { result.items ≡ self.history }
        ensures room { result.spare ≡ spare_of self }
    {
        let Env {
            ledger,
            pool: _,
            main: _,
            bodies: _,
        } = self;
        ledger.into_log()
    }

    // A post, by the script or by a task.
    fn enter_post(
        &mut self,
        seat: SeatNo,
        task: TaskId,
        runner: RunnerId,
        delay: u64,
        shift: Shift,
    ) -> bool
        requires { MayEnter self.old seat (Kind.Post task runner delay (not (is_refused self.old.script self.old.history runner delay))) shift }
        ensures reply { result ≡ not (is_refused self.old.script self.old.history runner delay) }
        ensures enters { Enters self.old self.new seat (Kind.Post task runner delay result) }
    {
        let ok = self.pool.post(self.ledger.len(), task, runner, delay);
        keep_if(ok, &mut self.bodies, task);
        self.ledger.enter(
            seat,
            Kind::Post {
                task,
                runner,
                delay,
                ok,
            },
            shift,
        );
        ok
    }

    fn enter(&mut self, seat: SeatNo, scope: Scope) -> bool
        requires { IsNextAct self.old seat (Act.Enter scope) }
        ensures reply { result ≡ true }
        ensures enters { EntersAct self.old self.new seat (Act.Enter scope) result }
    {
        let task = self.pool.task_of(seat).unwrap();
        self.pool.enter(seat, scope);
        self.ledger
            .enter(seat, Kind::Enter { task, scope }, Shift::Stays);
        true
    }

    fn leave(&mut self, seat: SeatNo) -> bool
        requires { IsNextAct self.old seat Act.Leave }
        ensures reply { result ≡ true }
        ensures enters { EntersAct self.old self.new seat Act.Leave result }
    {
        let task = self.pool.task_of(seat).unwrap();
        self.pool.leave(seat);
        self.ledger.enter(seat, Kind::Leave { task }, Shift::Stays);
        true
    }
}
