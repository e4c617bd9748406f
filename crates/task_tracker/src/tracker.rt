ghost use Rattle.std.specs.Prelude.{◌≡◌, ◌+◌, ◌-◌, ◌<◌, ◌≤◌, ◌↔◌, not, true, false, IsOk, IfErr, OnOk, OnErr};
ghost use Rattle.std.specs.Bool.{OnTrue, OnFalse};
ghost use Rattle.shutdown_phase.specs.declared.phase_count.TheConstants.{MAX_BLOCKERS};
ghost use Rattle.task_base.specs.Policy.{is_held_back};
ghost use Rattle.task_traits.specs.Behaviour.{forbids};
ghost use Rattle.task_tracker.specs.Tracked.{blocker_count, block_share, skip_share, may_start};

use shutdown_phase::{PhaseCount, StillBlocked};
use std::marker::Model;
use task_base::Policy;
use task_traits::{Behaviour, Phase, Priority, forbids};

/// What shutdown knows of the pool's work: who is let in, who may start, and how many pieces of work it
/// waits for (the behaviours are those of Chromium's `task_traits.h`; the count is this project's own rule).
///
/// It waits for each block task from its acceptance to its end, for each block job from its acceptance until
/// it is over, and for each skip task and each worker of a skip job while it runs. The caller reports these
/// moments, each once, and names behaviours as they are in effect: a delayed block task is a skip task.
#[derive(Debug, Drop)]
pub struct Tracker {
    /// Its count is that of all blockers, the skip items among them.
    progress: PhaseCount,
    policy: Policy,
    skip_items: u32,
}

impl Model for Tracker {
    ghost use Rattle.std.specs.Prelude.{◌-◌, ◌≤◌};
    ghost use Rattle.task_tracker.specs.Tracked.{Tracked};

    ghost Value = { Tracked };

    ghost view = { λ t. record {
      phase = t.progress.phase;
      policy = t.policy;
      block_items = t.progress.count - t.skip_items;
      skip_items = t.skip_items;
    } };

    ghost invariant = { λ t. t.skip_items ≤ t.progress.count };
}

impl Tracker {
    /// A tracker at opening: nothing is counted, and nothing is held back.
    pub fn new() -> Tracker
        ensures { result ≡ record { phase = Phase.Running; policy = Policy.All; block_items = 0; skip_items = 0 } }
    {
        Tracker {
            progress: PhaseCount::new(),
            policy: Policy::All,
            skip_items: 0,
        }
    }

    /// How far shutdown has come.
    pub fn phase(&self) -> Phase
        ensures { result ≡ self.now.phase }
    {
        self.progress.phase()
    }

    /// The policy that was set last.
    pub fn policy(&self) -> Policy
        ensures { result ≡ self.now.policy }
    {
        self.policy
    }

    /// How many pieces of work shutdown waits for, or would wait for if it started now.
    pub fn blockers(&self) -> u32
        ensures count { result ≡ blocker_count self.now }
        ensures bound { result ≤ MAX_BLOCKERS }
        ensures none_when_done { self.now.phase ≡ Phase.Done → result ≡ 0 }
    {
        self.progress.count()
    }

    /// Asks for a task or a job to be let in, at its post, and counts it if shutdown is to wait for it.
    pub fn accept(&mut self, effective: Behaviour) -> bool
        requires room { blocker_count self.old < MAX_BLOCKERS }
        ensures answer { result ≡ not (forbids self.old.phase effective) }
        ensures counted { OnTrue result (self.new ≡ record self.old {
          block_items = self.old.block_items + block_share effective;
        }) }
        ensures refused { OnFalse result (self.new ≡ self.old) }
    {
        if forbids(self.phase(), effective) {
            return false;
        }
        if effective == Behaviour::BlockShutdown {
            self.progress.add();
        }
        true
    }

    /// Whether an accepted task, or a worker of an accepted job, may start now.
    pub fn may_run(&self, priority: Priority, effective: Behaviour) -> bool
        ensures { result ≡ may_start self.now priority effective }
    {
        let phase = self.phase();
        !forbids(phase, effective) && !is_held_back(phase, self.policy, priority)
    }

    /// A task, or a worker of a job, has started. Block work was counted when it was accepted.
    pub fn started(&mut self, effective: Behaviour)
        requires allowed { forbids self.old.phase effective ≡ false }
        requires room { blocker_count self.old < MAX_BLOCKERS }
        ensures { self.new ≡ record self.old { skip_items = self.old.skip_items + skip_share effective } }
    {
        if effective == Behaviour::SkipOnShutdown {
            self.progress.add();
            self.skip_items += 1;
        }
    }

    /// A task that has started has ended.
    pub fn ended(&mut self, effective: Behaviour)
        requires block_counted { block_share effective ≤ self.old.block_items }
        requires skip_counted { skip_share effective ≤ self.old.skip_items }
        ensures { self.new ≡ record self.old {
          block_items = self.old.block_items - block_share effective;
          skip_items = self.old.skip_items - skip_share effective;
        } }
    {
        match effective {
            Behaviour::ContinueOnShutdown => {}
            Behaviour::SkipOnShutdown => self.drop_skip_item(),
            Behaviour::BlockShutdown => self.progress.drop_one(),
        }
    }

    /// A worker that has started on a job has left it.
    pub fn job_left(&mut self, behaviour: Behaviour)
        requires { skip_share behaviour ≤ self.old.skip_items }
        ensures { self.new ≡ record self.old { skip_items = self.old.skip_items - skip_share behaviour } }
    {
        if behaviour == Behaviour::SkipOnShutdown {
            self.drop_skip_item();
        }
    }

    /// An accepted job is over: nobody is inside, and its items are done or it was cancelled.
    pub fn job_over(&mut self, behaviour: Behaviour)
        requires { block_share behaviour ≤ self.old.block_items }
        ensures { self.new ≡ record self.old { block_items = self.old.block_items - block_share behaviour } }
    {
        if behaviour == Behaviour::BlockShutdown {
            self.progress.drop_one();
        }
    }

    /// Chooses which work is held back. From the start of shutdown on nothing is, whatever the policy.
    pub fn set_policy(&mut self, policy: Policy)
        ensures { self.new ≡ record self.old { policy = policy } }
    {
        self.policy = policy;
    }

    /// Starts shutdown: from now on only block work is let in and may start.
    pub fn start_shutdown(&mut self)
        requires { self.old.phase ≡ Phase.Running }
        ensures { self.new ≡ record self.old { phase = Phase.Started } }
    {
        self.progress.start();
    }

    /// Ends shutdown, unless something still blocks it.
    pub fn try_done(&mut self) -> Result<(), StillBlocked>
        requires { self.old.phase ≡ Phase.Started }
        ensures ok { IsOk result ↔ (blocker_count self.old ≡ 0) }
        ensures blocked { IfErr result (λ e. e.count ≡ blocker_count self.old) }
        ensures done { OnOk result (self.new ≡ record self.old { phase = Phase.Done }) }
        ensures unchanged { OnErr result (self.new ≡ self.old) }
    {
        self.progress.finish()
    }

    fn drop_skip_item(&mut self)
        requires { 0 < self.old.skip_items }
        ensures { self.new ≡ record self.old { skip_items = self.old.skip_items - 1 } }
    {
        self.skip_items -= 1;
        self.progress.drop_one();
    }
}

/// Whether the policy holds back work of a priority in this phase.
fn is_held_back(phase: Phase, policy: Policy, priority: Priority) -> bool
    ensures { result ≡ is_held_back phase policy priority }
{
    let held = match policy {
        Policy::All => false,
        Policy::Foreground => priority == Priority::BestEffort,
        Policy::Nothing => true,
    };
    phase == Phase::Running && held
}
