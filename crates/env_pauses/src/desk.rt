ghost use Rattle.std.specs.Prelude.{◌≡◌};

use crate::pausing::Pausing;
use env_crew::Desk;
use shutdown_phase::StillBlocked;
use std::marker::Model;
use std::rt::Clock;
use std::sync::Wait;
use task_base::{
    FenceAt, JobId, JobReply, NotYet, Policy, Priority, QueueId, RunnerId, SeatNo, TaskId,
};
use task_body::{Act, JobPass, Taken};

/// A desk around a desk, which pauses by a seed before each call that may make an entry, without the turn. Then it does what the
/// desk inside does.
///
/// Contracts see the desk inside.
#[derive(Drop)]
pub struct PausingDesk<'a, D: Desk, H: Clock> {
    inner: D,
    pausing: Option<Pausing<'a, H>>,
}

impl<'a, D: Desk, H: Clock> Model for PausingDesk<'a, D, H> {
    ghost Value = { D };

    ghost view = { λ d. d.inner };
}

impl<'a, D: Desk, H: Clock> PausingDesk<'a, D, H> {
    /// Pauses by these, and not at all where there are none.
    pub fn new(inner: D, pausing: Option<Pausing<'a, H>>) -> PausingDesk<'a, D, H>
        ensures { result ≡ inner }
    {
        PausingDesk { inner, pausing }
    }

    /// The desk inside.
    pub fn into_inner(self) -> D
        ensures { result ≡ self.entry }
    {
        let PausingDesk { inner, pausing: _ } = self;
        inner
    }

    // The thread pauses, where this desk does.
    fn pause(&mut self)
        ensures { self.new ≡ self.old }
    {
        if let Some(pausing) = &mut self.pausing {
            pausing.pause();
        }
    }
}

impl<'a, D: Desk, H: Clock> Desk for PausingDesk<'a, D, H> {
    type Work = D::Work;

    ghost desk = { D.desk };

    fn number(&self) -> SeatNo {
        self.inner.number()
    }

    fn post<R: Wait>(&mut self, rt: &R, task: TaskId, runner: RunnerId, delay: u64) -> bool {
        self.pause();
        self.inner.post(rt, task, runner, delay)
    }

    fn main_post<R: Wait>(&mut self, rt: &R, task: TaskId, queue: QueueId, delay: u64) -> bool {
        self.pause();
        self.inner.main_post(rt, task, queue, delay)
    }

    fn tick<R: Wait>(&mut self, rt: &R, reading: u64) -> u64 {
        self.pause();
        self.inner.tick(rt, reading)
    }

    fn policy<R: Wait>(&mut self, rt: &R, policy: Policy) {
        self.pause();
        self.inner.policy(rt, policy);
    }

    fn reprio<R: Wait>(&mut self, rt: &R, runner: RunnerId, priority: Priority) {
        self.pause();
        self.inner.reprio(rt, runner, priority);
    }

    fn fence<R: Wait>(&mut self, rt: &R, queue: QueueId, at: FenceAt) {
        self.pause();
        self.inner.fence(rt, queue, at);
    }

    fn unfence<R: Wait>(&mut self, rt: &R, queue: QueueId) {
        self.pause();
        self.inner.unfence(rt, queue);
    }

    fn vote<R: Wait>(&mut self, rt: &R, queue: QueueId, voter: u8, on: bool) {
        self.pause();
        self.inner.vote(rt, queue, voter, on);
    }

    fn rank<R: Wait>(&mut self, rt: &R, queue: QueueId, class: u8) {
        self.pause();
        self.inner.rank(rt, queue, class);
    }

    fn close_queue<R: Wait>(&mut self, rt: &R, queue: QueueId) {
        self.pause();
        self.inner.close_queue(rt, queue);
    }

    fn main_take<R: Wait>(&mut self, rt: &R) -> Option<D::Work> {
        self.pause();
        self.inner.main_take(rt)
    }

    fn main_end<R: Wait>(&mut self, rt: &R, work: D::Work) {
        self.pause();
        self.inner.main_end(rt, work);
    }

    fn take<R: Wait>(&mut self, rt: &R) -> Taken<D::Work> {
        self.pause();
        self.inner.take(rt)
    }

    fn take_or_rest<R: Wait>(&mut self, rt: &R) -> Taken<D::Work> {
        self.pause();
        self.inner.take_or_rest(rt)
    }

    fn rest<R: Wait>(&mut self, rt: &R) {
        self.inner.rest(rt);
    }

    fn sleep<R: Wait>(&mut self, rt: &R) {
        self.inner.sleep(rt);
    }

    fn act<R: Wait>(&mut self, rt: &R, act: Act) -> bool {
        self.pause();
        self.inner.act(rt, act)
    }

    fn end<R: Wait>(&mut self, rt: &R, work: D::Work) {
        self.pause();
        self.inner.end(rt, work);
    }

    fn job_post<R: Wait>(&mut self, rt: &R, job: JobId) -> bool {
        self.pause();
        self.inner.job_post(rt, job)
    }

    fn job_take<R: Wait>(&mut self, rt: &R, job: JobId) -> Option<JobPass> {
        self.pause();
        self.inner.job_take(rt, job)
    }

    fn job_step<R: Wait>(&mut self, rt: &R, pass: JobPass, value: u64) -> Option<JobPass> {
        self.pause();
        self.inner.job_step(rt, pass, value)
    }

    fn job_cancel<R: Wait>(&mut self, rt: &R, job: JobId) {
        self.pause();
        self.inner.job_cancel(rt, job);
    }

    fn try_cancelled<R: Wait>(&mut self, rt: &R, job: JobId) -> Result<(), NotYet> {
        self.pause();
        self.inner.try_cancelled(rt, job)
    }

    fn try_joined<R: Wait>(&mut self, rt: &R, job: JobId) -> Result<JobReply, NotYet> {
        self.pause();
        self.inner.try_joined(rt, job)
    }

    fn job_value(&self, job: JobId, item: u32) -> u64 {
        self.inner.job_value(job, item)
    }

    fn try_idle<R: Wait>(&mut self, rt: &R) -> Result<(), NotYet> {
        self.pause();
        self.inner.try_idle(rt)
    }

    fn start_shutdown<R: Wait>(&mut self, rt: &R) {
        self.pause();
        self.inner.start_shutdown(rt);
    }

    fn try_done<R: Wait>(&mut self, rt: &R) -> Result<(), StillBlocked> {
        self.pause();
        self.inner.try_done(rt)
    }
}
