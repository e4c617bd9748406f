ghost use Rattle.std.specs.Prelude.{◌≡◌, ◌<◌, [], List, length, None, IfOk};
ghost use Rattle.task_base.specs.Plan.{Plan};
ghost use Rattle.task_base.specs.declared.entry.Entry.{Entry as AnyEntry};
ghost use Rattle.script_model.specs.Laws.Sound.{IsSound};
ghost use Rattle.live_core.specs.Opening.{guest_runner};
ghost use Rattle.order_model.specs.Orders.{is_ended};
ghost use Rattle.order_model.specs.Plans.{plan_of};
ghost use Rattle.order_search.specs.Following.{Comes, Follows};

use live_core::LiveCore;
use log_replay::Replay;
use open_check::{Against, core_of, follow_entry};
use order_model::PlanKind;
use std::alloc::{AllocError, Global};
use task_base::{Entry, Script};

/// What has followed the entries of the events that are placed: it tells which entry may come after them.
#[derive(Drop)]
pub(crate) enum Follower {
    /// A replay, by a script.
    Closed(Replay),
    /// The core of a script's open plan.
    Open(LiveCore),
}

/// What came of an entry.
#[derive(Clone, Copy, Debug)]
pub(crate) enum Followed {
    /// It may come, and was followed.
    Came,
    /// It may not come, and nothing was changed.
    Stayed,
    /// It may not come, and what was to follow it is of no more use: another entry may have come there.
    Strayed,
}

impl Follower {
    /// Nothing has come. The error is out of memory.
    pub(crate) fn open(
        alloc: Global,
        script: &Script,
        kind: PlanKind,
    ) -> Result<Follower, AllocError>
        requires plan { IsSound script.now }
        requires guest { kind ≡ PlanKind.Open → guest_runner script.now ≡ None }
        ensures { IfOk result (λ follower. Follows (plan_of kind script.now) [] follower) }
    {
        match kind {
            PlanKind::Closed => Ok(Follower::Closed(Replay::open(alloc, script)?)),
            PlanKind::Open => Ok(Follower::Open(core_of(alloc, script)?)),
        }
    }

    /// Goes on by an entry, if it may come.
    pub(crate) fn follow(&mut self, script: &Script, entry: Entry) -> Followed
        requires { (kind : PlanKind) × (past : List AnyEntry) × Follows (plan_of kind script.now) past self.old × (length past < u32.MAX) }
        ensures { (kind : PlanKind) (past : List AnyEntry) → Follows (plan_of kind script.now) past self.old → length past < u32.MAX
            → Comes (plan_of kind script.now) past entry self.new result }
    {
        match self {
            Follower::Closed(replay) => {
                if replay.follow(script, entry) {
                    Followed::Came
                } else {
                    Followed::Strayed
                }
            }
            Follower::Open(live) => match follow_entry(live, entry) {
                None => Followed::Came,
                Some(Against::Made { .. }) => Followed::Strayed,
                Some(_) => Followed::Stayed,
            },
        }
    }

    /// Whether a log of what has come may end here.
    pub(crate) fn is_ended(&self) -> bool
        ensures { (plan : Plan) (past : List AnyEntry) → Follows plan past self.now → result ≡ is_ended plan past }
    {
        match self {
            Follower::Closed(replay) => replay.is_whole(),
            Follower::Open(live) => live.is_quiet(),
        }
    }

    /// Drops it, as `Replay::discard` does a replay.
    pub(crate) fn discard(self) {
        match self {
            Follower::Closed(replay) => replay.discard(),
            Follower::Open(live) => drop(live),
        }
    }
}
