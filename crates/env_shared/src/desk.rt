ghost use Rattle.std.specs.Prelude.{◌≡◌, ◌≢◌, ◌≤◌, ◌+◌, ◌&&◌, true, false, List, None, IfNone, IfSome, IsSome};
ghost use Rattle.task_base.specs.declared.entry.Entry.{Entry};
ghost use Rattle.task_model.specs.Phase.{phase_of};
ghost use Rattle.task_traits.specs.Behaviour.{forbids};
ghost use Rattle.hist_model.specs.Views.{IsPrefix};
ghost use Rattle.turn_table.specs.Shutdowns.{IsShutdownAt, has_shutdown};
ghost use Rattle.env_crew.specs.Calls.{Gives, is_nothing};
ghost use Rattle.env_crew.specs.Desk.{AnswersWith};
ghost use Rattle.env_crew.specs.Serving.{IsFree};
ghost use Rattle.env_shared.specs.Sits.{Seated, desk_of};

use crate::hold::Hold;
use crate::shared::{EnvSeat, Shared};
use crate::sitter::Sitter;
use env_crew::Desk;
use shutdown_phase::StillBlocked;
use std::marker::Model;
use std::sync::Wait;
use task_base::{
    Behaviour, FenceAt, JobId, JobReply, NotYet, Policy, Priority, QueueId, RunnerId, SeatNo,
    TaskId,
};
use task_body::{Act, Assignment, JobPass, Taken, TaskBody};

/// A desk of an environment that is shared: a seat, with the turn that it takes at each call.
///
/// Contracts see the seat, and whether it was noted by the last hold as one that rests, and hasn't slept since.
#[derive(Drop)]
pub struct SharedDesk<'a, B: TaskBody> {
    shared: &'a Shared<B>,
    // It is away only within a call.
    sitter: Option<Sitter<B>>,
}

impl<'a, B: TaskBody> Model for SharedDesk<'a, B> {
    ghost use Rattle.env_shared.specs.Sits.{IsSat, SitterView, sitter_there};

    ghost Value = { SitterView };

    ghost view = { λ d. sitter_there d.shared.now d.sitter };

    ghost invariant = { λ d. IsSat d.shared.now d.sitter };
}

impl<'a, B: TaskBody> SharedDesk<'a, B> {
    pub(crate) fn new(shared: &'a Shared<B>, seat: EnvSeat<B>) -> SharedDesk<'a, B>
        requires of { seat.of ≡ shared.now }
        requires known { seat.number ≤ shared.now.basis.workers }
        ensures seat { result.seat ≡ seat }
        ensures awake { result.rests ≡ false }
        ensures seated { Seated result.seat }
    {
        // What these say of the seat and of the shared environment is kept.
        let _turnstile = &shared.turnstile;
        let _number = seat.number();
        SharedDesk {
            shared,
            sitter: Some(Sitter { seat, rest: None }),
        }
    }

    /// Asks, without the turn, whether tasks of this behaviour are refused: the place of the shutdown from which on a
    /// post to the pool is refused where the behaviour is the one in effect. `None` says that the word that was read
    /// tells of no shutdown, and it is the answer for block work, of which the word tells nothing. It waits for nobody.
    /// A seat that was answered, or that entered a shutdown, is told, and is answered ever after.
    pub fn shut_to(&mut self, behaviour: Behaviour) -> Option<u64>
        ensures block { behaviour ≡ Behaviour.BlockShutdown → (result ≡ None) × (self.new ≡ self.old) }
        ensures seat { behaviour ≢ Behaviour.BlockShutdown → self.new.seat ≡ record self.old.seat { seen = self.new.seat.seen; loads = self.old.seat.loads + 1; last = self.new.seat.last; told = self.new.seat.told } }
        ensures rests { self.new.rests ≡ self.old.rests }
        ensures begins { IsPrefix self.old.seat.seen self.new.seat.seen }
        ensures none { behaviour ≢ Behaviour.BlockShutdown → IfNone result (self.new.seat.last ≡ 0) }
        ensures told { behaviour ≢ Behaviour.BlockShutdown → self.old.seat.told ≡ true → IsSome result }
        ensures own { behaviour ≢ Behaviour.BlockShutdown → has_shutdown self.old.seat.mine ≡ true → IsSome result }
        ensures place { IfSome result (λ place. (self.new.seat.last ≡ place + 1) × (self.new.seat.told ≡ true) × IsShutdownAt self.new.seat.seen place) }
        ensures refuses { IfSome result (λ _. (later : List Entry) → IsPrefix self.new.seat.seen later → forbids (phase_of later) behaviour ≡ true) }
    {
        if behaviour == Behaviour::BlockShutdown {
            return None;
        }
        let shared = self.shared;
        let turnstile = &shared.turnstile;
        let Sitter { mut seat, rest } = self.sitter.take().unwrap();
        let place = turnstile.front(&mut seat);
        let _number = seat.number();
        self.sitter = Some(Sitter { seat, rest });
        place
    }

    // Asks for work. Where there is nothing, the seat rests if it may.
    fn ask<R: Wait>(&mut self, rt: &R, may_rest: bool) -> Taken<Assignment<B>>
        requires { IsFree (desk_of self.old) }
        ensures { AnswersWith (may_rest && is_nothing result) (desk_of self.old) (desk_of self.new) (Gives (λ work. work) self.old.seat.number result) }
    {
        let (mut env, hold) = Hold::begin(rt, self.shared, &mut self.sitter);
        match env.take(hold.number()) {
            Taken::Task(work) => {
                self.sitter = Some(hold.enter(env));
                Taken::Task(work)
            }
            Taken::Item(pass) => {
                self.sitter = Some(hold.enter(env));
                Taken::Item(pass)
            }
            Taken::Nothing if may_rest => {
                self.sitter = Some(hold.rest(env));
                Taken::Nothing
            }
            Taken::Nothing => {
                self.sitter = Some(hold.back(env));
                Taken::Nothing
            }
            Taken::Over => {
                self.sitter = Some(hold.back(env));
                Taken::Over
            }
        }
    }

    /// The seat, which leaves the desk.
    pub fn into_seat(self) -> EnvSeat<B>
        ensures seat { result ≡ self.entry.seat }
        ensures seated { Seated result }
    {
        let SharedDesk { shared: _, sitter } = self;
        let Sitter { seat, rest: _ } = sitter.unwrap();
        seat
    }
}

impl<'a, B: TaskBody> Desk for SharedDesk<'a, B> {
    ghost use Rattle.env_shared.specs.Sits.{desk_of};

    type Work = Assignment<B>;

    ghost desk = { desk_of };

    fn number(&self) -> SeatNo {
        self.sitter.as_ref().unwrap().seat.number()
    }

    fn post<R: Wait>(&mut self, rt: &R, task: TaskId, runner: RunnerId, delay: u64) -> bool {
        let (mut env, hold) = Hold::begin(rt, self.shared, &mut self.sitter);
        let ok = env.post(hold.number(), task, runner, delay);
        self.sitter = Some(hold.enter(env));
        ok
    }

    fn main_post<R: Wait>(&mut self, rt: &R, task: TaskId, queue: QueueId, delay: u64) -> bool {
        let (mut env, hold) = Hold::begin(rt, self.shared, &mut self.sitter);
        let ok = env.main_post(hold.number(), task, queue, delay);
        self.sitter = Some(hold.enter(env));
        ok
    }

    fn tick<R: Wait>(&mut self, rt: &R, reading: u64) -> u64 {
        let (mut env, hold) = Hold::begin(rt, self.shared, &mut self.sitter);
        let now = env.tick(hold.number(), reading);
        self.sitter = Some(hold.enter(env));
        now
    }

    fn policy<R: Wait>(&mut self, rt: &R, policy: Policy) {
        let (mut env, hold) = Hold::begin(rt, self.shared, &mut self.sitter);
        env.policy(hold.number(), policy);
        self.sitter = Some(hold.enter(env));
    }

    fn reprio<R: Wait>(&mut self, rt: &R, runner: RunnerId, priority: Priority) {
        let (mut env, hold) = Hold::begin(rt, self.shared, &mut self.sitter);
        env.reprio(hold.number(), runner, priority);
        self.sitter = Some(hold.enter(env));
    }

    fn fence<R: Wait>(&mut self, rt: &R, queue: QueueId, at: FenceAt) {
        let (mut env, hold) = Hold::begin(rt, self.shared, &mut self.sitter);
        env.fence(hold.number(), queue, at);
        self.sitter = Some(hold.enter(env));
    }

    fn unfence<R: Wait>(&mut self, rt: &R, queue: QueueId) {
        let (mut env, hold) = Hold::begin(rt, self.shared, &mut self.sitter);
        env.unfence(hold.number(), queue);
        self.sitter = Some(hold.enter(env));
    }

    fn vote<R: Wait>(&mut self, rt: &R, queue: QueueId, voter: u8, on: bool) {
        let (mut env, hold) = Hold::begin(rt, self.shared, &mut self.sitter);
        env.vote(hold.number(), queue, voter, on);
        self.sitter = Some(hold.enter(env));
    }

    fn rank<R: Wait>(&mut self, rt: &R, queue: QueueId, class: u8) {
        let (mut env, hold) = Hold::begin(rt, self.shared, &mut self.sitter);
        env.rank(hold.number(), queue, class);
        self.sitter = Some(hold.enter(env));
    }

    fn close_queue<R: Wait>(&mut self, rt: &R, queue: QueueId) {
        let (mut env, hold) = Hold::begin(rt, self.shared, &mut self.sitter);
        env.close_queue(hold.number(), queue);
        self.sitter = Some(hold.enter(env));
    }

    fn main_take<R: Wait>(&mut self, rt: &R) -> Option<Assignment<B>> {
        let (mut env, hold) = Hold::begin(rt, self.shared, &mut self.sitter);
        match env.main_take(hold.number()) {
            Some(work) => {
                self.sitter = Some(hold.enter(env));
                Some(work)
            }
            None => {
                self.sitter = Some(hold.enter(env));
                None
            }
        }
    }

    fn main_end<R: Wait>(&mut self, rt: &R, work: Assignment<B>) {
        let (mut env, hold) = Hold::begin(rt, self.shared, &mut self.sitter);
        let body = env.main_end(hold.number(), work);
        self.sitter = Some(hold.enter(env));
        // Only now, so that nobody waits for it.
        drop(body);
    }

    fn take<R: Wait>(&mut self, rt: &R) -> Taken<Assignment<B>> {
        self.ask(rt, false)
    }

    fn take_or_rest<R: Wait>(&mut self, rt: &R) -> Taken<Assignment<B>> {
        self.ask(rt, true)
    }

    fn sleep<R: Wait>(&mut self, rt: &R) {
        let Sitter { seat, rest } = self.sitter.take().unwrap();
        let number = seat.number();
        self.sitter = Some(Sitter { seat, rest: None });
        self.shared.sleep(rt, number, rest.unwrap());
    }

    fn rest<R: Wait>(&mut self, rt: &R) {
        let (env, hold) = Hold::begin(rt, self.shared, &mut self.sitter);
        self.sitter = Some(hold.rest(env));
    }

    fn act<R: Wait>(&mut self, rt: &R, act: Act) -> bool {
        let (mut env, hold) = Hold::begin(rt, self.shared, &mut self.sitter);
        let ok = env.act(hold.number(), act);
        self.sitter = Some(hold.enter(env));
        ok
    }

    fn end<R: Wait>(&mut self, rt: &R, work: Assignment<B>) {
        let (mut env, hold) = Hold::begin(rt, self.shared, &mut self.sitter);
        let body = env.end(hold.number(), work);
        self.sitter = Some(hold.enter(env));
        // Only now, so that nobody waits for it.
        drop(body);
    }

    fn job_post<R: Wait>(&mut self, rt: &R, job: JobId) -> bool {
        let (mut env, hold) = Hold::begin(rt, self.shared, &mut self.sitter);
        let ok = env.job_post(hold.number(), job);
        self.sitter = Some(hold.enter(env));
        ok
    }

    fn job_take<R: Wait>(&mut self, rt: &R, job: JobId) -> Option<JobPass> {
        let (mut env, hold) = Hold::begin(rt, self.shared, &mut self.sitter);
        let Some(pass) = env.job_take(hold.number(), job) else {
            self.sitter = Some(hold.back(env));
            return None;
        };
        self.sitter = Some(hold.enter(env));
        Some(pass)
    }

    fn job_step<R: Wait>(&mut self, rt: &R, pass: JobPass, value: u64) -> Option<JobPass> {
        let (mut env, hold) = Hold::begin(rt, self.shared, &mut self.sitter);
        let Some(next) = env.job_step(hold.number(), pass, value) else {
            self.sitter = Some(hold.enter(env));
            return None;
        };
        self.sitter = Some(hold.enter(env));
        Some(next)
    }

    fn job_cancel<R: Wait>(&mut self, rt: &R, job: JobId) {
        let (mut env, hold) = Hold::begin(rt, self.shared, &mut self.sitter);
        env.job_cancel(hold.number(), job);
        self.sitter = Some(hold.enter(env));
    }

    fn try_cancelled<R: Wait>(&mut self, rt: &R, job: JobId) -> Result<(), NotYet> {
        let (mut env, hold) = Hold::begin(rt, self.shared, &mut self.sitter);
        match env.try_cancelled(hold.number(), job) {
            Ok(()) => {
                self.sitter = Some(hold.enter(env));
                Ok(())
            }
            Err(not_yet) => {
                self.sitter = Some(hold.back(env));
                Err(not_yet)
            }
        }
    }

    fn try_joined<R: Wait>(&mut self, rt: &R, job: JobId) -> Result<JobReply, NotYet> {
        let (mut env, hold) = Hold::begin(rt, self.shared, &mut self.sitter);
        match env.try_joined(hold.number(), job) {
            Ok(reply) => {
                self.sitter = Some(hold.enter(env));
                Ok(reply)
            }
            Err(not_yet) => {
                self.sitter = Some(hold.back(env));
                Err(not_yet)
            }
        }
    }

    fn job_value(&self, job: JobId, item: u32) -> u64 {
        let shared = self.shared;
        let _number = self.number();
        shared.value(job, item)
    }

    fn try_idle<R: Wait>(&mut self, rt: &R) -> Result<(), NotYet> {
        let (mut env, hold) = Hold::begin(rt, self.shared, &mut self.sitter);
        match env.try_idle(hold.number()) {
            Ok(()) => {
                self.sitter = Some(hold.enter(env));
                Ok(())
            }
            Err(not_yet) => {
                self.sitter = Some(hold.back(env));
                Err(not_yet)
            }
        }
    }

    fn start_shutdown<R: Wait>(&mut self, rt: &R) {
        let (mut env, hold) = Hold::begin(rt, self.shared, &mut self.sitter);
        env.start_shutdown(hold.number());
        self.sitter = Some(hold.enter_shutdown(env));
    }

    fn try_done<R: Wait>(&mut self, rt: &R) -> Result<(), StillBlocked> {
        let (mut env, hold) = Hold::begin(rt, self.shared, &mut self.sitter);
        match env.try_done(hold.number()) {
            Ok(()) => {
                self.sitter = Some(hold.enter(env));
                Ok(())
            }
            Err(blocked) => {
                self.sitter = Some(hold.back(env));
                Err(blocked)
            }
        }
    }
}
