use std::marker::Model;
use task_base::{Behaviour, JobId, Priority, RunnerId, TaskId};

/// Where the driver is.
#[derive(Clone, Copy, Debug)]
pub struct DriverAt {
    /// How many of its actions are not complete.
    pub left: usize,
    /// How much of the first of them is made: the ticks of a tick, or the first entry of an action that has two.
    pub made: u32,
}

impl Model for DriverAt {
    ghost use Rattle.situation.specs.Situation.{DriverAt};

    ghost Value = { DriverAt };

    ghost view = { λ driver. record { left = driver.left; made = driver.made } };

    ghost inverse = { λ driver. record { left = driver.left; made = driver.made } };
}

/// A task that a seat runs.
#[derive(Clone, Copy, Debug)]
pub struct Running {
    pub task: TaskId,
    /// The runner that it was posted to.
    pub home: RunnerId,
    /// What it found in the cell of its sequence.
    pub found: u64,
    /// Whether it is a task of a main queue.
    pub is_main: bool,
}

impl Model for Running {
    ghost use Rattle.task_model.specs.Seats.{Running};

    ghost Value = { Running };

    ghost view = { λ w. record { task = w.task; home = w.home; found = w.found; is_main = w.is_main } };

    ghost inverse = { λ w. record { task = w.task; home = w.home; found = w.found; is_main = w.is_main } };
}

/// What a seat does.
#[derive(Clone, Copy, Debug)]
pub struct SeatAt {
    /// The task that it runs.
    pub runs: Option<Running>,
    /// How many act steps of the task are entered.
    pub acts: u32,
    /// The priority that the task was taken with.
    pub taken: Option<Priority>,
    /// From which moment its open scope counts, in microseconds: 0 where it counts by now.
    pub scope: Option<u64>,
    /// The behaviour of the task in effect.
    pub behaviour: Option<Behaviour>,
    /// The job that the seat is inside.
    pub job: Option<JobId>,
}

impl Model for SeatAt {
    ghost use Rattle.situation.specs.Situation.{SeatAt};

    ghost Value = { SeatAt };

    ghost view = { λ seat. record {
      runs = seat.runs;
      acts = seat.acts;
      taken = seat.taken;
      scope = seat.scope;
      behaviour = seat.behaviour;
      job = seat.job;
    } };

    ghost inverse = { λ seat. record {
      runs = seat.runs;
      acts = seat.acts;
      taken = seat.taken;
      scope = seat.scope;
      behaviour = seat.behaviour;
      job = seat.job;
    } };
}

/// What is known of a job.
#[derive(Clone, Copy, Debug)]
pub struct JobAt {
    /// The reply to its post, if it was posted.
    pub reply: Option<bool>,
    /// Whether it is cancelled.
    pub cancelled: bool,
    /// How many of its items are claimed.
    pub claims: u32,
}

impl Model for JobAt {
    ghost use Rattle.situation.specs.Situation.{JobAt};

    ghost Value = { JobAt };

    ghost view = { λ job. record { reply = job.reply; cancelled = job.cancelled; claims = job.claims } };

    ghost inverse = { λ job. record { reply = job.reply; cancelled = job.cancelled; claims = job.claims } };
}

/// An accepted task that is not ripe.
#[derive(Clone, Copy, Debug)]
pub struct Unripe {
    pub task: TaskId,
    /// The runner that it was posted to.
    pub home: RunnerId,
    /// In microseconds.
    pub delay: u64,
    /// The moment from which it is ripe, in microseconds.
    pub ripe: u64,
}

impl Model for Unripe {
    ghost use Rattle.situation.specs.Situation.{Unripe};

    ghost Value = { Unripe };

    ghost view = { λ u. record { task = u.task; home = u.home; delay = u.delay; ripe = u.ripe } };

    ghost inverse = { λ u. record { task = u.task; home = u.home; delay = u.delay; ripe = u.ripe } };
}

/// Who waits in the line of the pool.
#[derive(Clone, Copy, Debug)]
pub enum Waits {
    /// A task that may be taken, the runner that it was posted to, and its delay in microseconds.
    Task {
        task: TaskId,
        home: RunnerId,
        delay: u64,
    },
    /// A job that may be entered.
    OfJob(JobId),
}

/// One place of the line of the pool.
#[derive(Clone, Copy, Debug)]
pub struct Waiter {
    /// Who waits there.
    pub waits: Waits,
}

impl Model for Waiter {
    ghost use Rattle.situation.specs.Line.{Waiter};
    ghost use Rattle.situation_steps.specs.Waits.{waiter_by, waits_of, waits_of_waiter};
    ghost use Rattle.std.proofs.Common.{ap};

    ghost Value = { Waiter };

    ghost view = { λ w. waiter_by w.waits };

    ghost inverse = { λ w. record { waits = waits_of w } };

    ghost inverse_ok = { λ a h. ap (λ w. record { waits = w }) (waits_of_waiter a.waits) };
}
