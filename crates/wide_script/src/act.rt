ghost use Rattle.std.specs.Prelude.{◌≡◌, ◌≤◌, ◌<◌, ◌++◌, flat_map, IfOk};
ghost use Rattle.std.specs.List.{range_with_len};
ghost use Rattle.wide_script.specs.Drawn.{actions_at, cut, end_of, fence_by, is_cancelled, is_joined, last_actions, policy_by, pool_turn, queue_turn};
ghost use Rattle.wide_script.specs.Drawn.{stop_of, turn_by};

use crate::chosen::add_actions;
use crate::declare::priority_by;
use crate::draws::{Draws, one_of};
use crate::goals::action_to;
use std::alloc::{AllocError, Global};
use task_base::{Action, FenceAt, JobId, Policy, Rows, TaskId};

impl Draws {
    #[tactic(auto, using(crate::proofs::Growth::each_more))]
    pub(crate) fn actions(&self, alloc: Global) -> Result<Rows<Action>, AllocError>
        requires { self.now.size ≤ 8192 }
        ensures { IfOk result (λ actions. actions.items ≡ flat_map (actions_at self.now) (range_with_len 0 self.now.size) ++ last_actions self.now) }
    {
        let mut actions = Vec::new(alloc);
        for task in 0..self.size {
            self.add_actions_at(&mut actions, task)?;
        }
        self.add_last_actions(&mut actions)?;
        Ok(Rows::from_vec(actions))
    }

    /// Adds all that the driver does up to the post of a task.
    #[tactic(auto, unfolding(crate::specs::Drawn::actions_at))]
    fn add_actions_at(&self, actions: &mut Vec<Action>, task: TaskId) -> Result<(), AllocError>
        requires few { self.now.size ≤ 8192 }
        requires there { task < 8192 }
        ensures { IfOk result (λ _. actions.new.items ≡ actions.old.items ++ actions_at self.now task) }
    {
        let y = self.of_turn(task);
        let is_first = task == self.cut(0);
        let is_second = task == self.cut(1);
        let is_third = task == self.cut(2);
        let is_fourth = task == self.cut(3);
        let is_cancelled = self.is_cancelled(0);
        let is_joined = self.is_joined(0);
        let stops = self.stop() == 0;
        let choices = [
            (self.parts.jobs && is_first, Action::StartJob { job: 0 }),
            (self.parts.jobs && is_second, Action::StartJob { job: 1 }),
            (is_third && is_cancelled, Action::Cancel { job: 0 }),
            (is_third && is_joined, Action::Join { job: 0 }),
            (is_fourth && stops, Action::Shutdown),
            self.turn_by(y, one_of(16, y, 0)),
            (
                !self.is_posted_by_next(task),
                action_to(task, self.delay(task), self.goal(task)),
            ),
        ];
        add_actions(actions, &choices)
    }

    /// Adds what the driver does after the posts.
    #[tactic(auto, unfolding(crate::specs::Drawn::last_actions))]
    fn add_last_actions(&self, actions: &mut Vec<Action>) -> Result<(), AllocError>
        ensures { IfOk result (λ _. actions.new.items ≡ actions.old.items ++ last_actions self.now) }
    {
        let stop = self.stop();
        let choices = [
            (self.parts.jobs, Action::StartJob { job: 2 }),
            (self.is_cancelled(1), Action::Cancel { job: 1 }),
            (self.is_joined(1), Action::Join { job: 1 }),
            (self.parts.main, Action::Pump { count: self.size }),
            (one_of(2, self.number(14), 7) == 0, Action::Flush),
            (stop == 1 || stop == 2, Action::Shutdown),
            (self.is_cancelled(2), Action::Cancel { job: 2 }),
            (self.is_joined(2), Action::Join { job: 2 }),
        ];
        add_actions(actions, &choices)
    }

    /// Before the post of which task something more stands: a place in this quarter of the tasks.
    fn cut(&self, quarter: u32) -> u32
        requires few { self.now.size ≤ 8192 }
        requires there { quarter < 4 }
        ensures { result ≡ cut self.now quarter }
    {
        self.size * (4 * quarter + one_of(4, self.number(12), 7 * quarter)) / 16
    }

    /// How a job ends.
    fn end(&self, job: JobId) -> u32
        requires { job < 3 }
        ensures { result ≡ end_of self.now job }
    {
        one_of(4, self.number(13), 7 * job)
    }

    fn is_cancelled(&self, job: JobId) -> bool
        requires { job < 3 }
        ensures { result ≡ is_cancelled self.now job }
    {
        let end = self.end(job);
        self.parts.jobs && (end == 1 || end == 2)
    }

    fn is_joined(&self, job: JobId) -> bool
        requires { job < 3 }
        ensures { result ≡ is_joined self.now job }
    {
        let end = self.end(job);
        self.parts.jobs && (end == 0 || end == 2)
    }

    /// When shutdown starts.
    fn stop(&self) -> u32
        ensures { result ≡ stop_of self.now }
    {
        if self.parts.shutdown {
            one_of(4, self.number(14), 0)
        } else {
            3
        }
    }

    /// What the driver does in a turn, and whether it does.
    #[tactic(auto, unfolding(crate::specs::Drawn::turn_by))]
    fn turn_by(&self, y: u32, kind: u32) -> (bool, Action)
        ensures { result ≡ turn_by self.now y kind }
    {
        if kind < 5 {
            return self.pool_turn(y, kind);
        }
        let closes = kind != 10 || one_of(4, y, 14) == 0;
        (self.parts.main && kind < 13 && closes, queue_turn(y, kind))
    }

    /// What it does with the pool or the clock, and whether it does.
    fn pool_turn(&self, y: u32, kind: u32) -> (bool, Action)
        ensures { result ≡ pool_turn self.now y kind }
    {
        match kind {
            2 => (
                true,
                Action::Policy {
                    policy: policy_by(one_of(3, y, 7)),
                },
            ),
            3 => (
                true,
                Action::Reprio {
                    runner: one_of(6, y, 7),
                    priority: priority_by(one_of(3, y, 14)),
                },
            ),
            4 => (true, Action::Flush),
            _ => (
                self.parts.delays,
                Action::Tick {
                    count: 1 + one_of(3, y, 7),
                },
            ),
        }
    }
}

/// What it does with a main queue.
fn queue_turn(y: u32, kind: u32) -> Action
    ensures { result ≡ queue_turn y kind }
{
    let queue = one_of(3, y, 7);
    let voter = one_of(queue + 1, y, 14) as u8;
    match kind {
        5 => Action::Fence {
            queue,
            at: fence_by(one_of(2, y, 14)),
        },
        6 => Action::Unfence { queue },
        7 => Action::Vote {
            queue,
            voter,
            on: false,
        },
        8 => Action::Vote {
            queue,
            voter,
            on: true,
        },
        9 => Action::Rank {
            queue,
            class: one_of(8, y, 14) as u8,
        },
        10 => Action::Close { queue },
        _ => Action::Pump {
            count: 1 + one_of(8, y, 14),
        },
    }
}

fn policy_by(n: u32) -> Policy
    ensures { result ≡ policy_by n }
{
    match n {
        0 => Policy::All,
        1 => Policy::Foreground,
        _ => Policy::Nothing,
    }
}

fn fence_by(n: u32) -> FenceAt
    ensures { result ≡ fence_by n }
{
    match n {
        0 => FenceAt::Now,
        _ => FenceAt::Start,
    }
}
