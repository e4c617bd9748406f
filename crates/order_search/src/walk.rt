ghost use Rattle.std.specs.Prelude.{◌≡◌, ◌+◌, ◌^◌, ◌<◌, true, false, [], length, slice_set, None, IfOk};
ghost use Rattle.script_model.specs.Laws.Sound.{IsSound};
ghost use Rattle.hist_model.specs.Legal.{IsLegal};
ghost use Rattle.live_core.specs.Opening.{guest_runner};
ghost use Rattle.order_model.specs.Orders.{IsOrder, entries_of};
ghost use Rattle.order_model.specs.Plans.{plan_of};
ghost use Rattle.order_search.specs.Following.{Follows, GoesOn};
ghost use Rattle.order_search.specs.Search.{GoesBack, IsNext, IsWalk, Known, task_of};
ghost use Rattle.order_search.specs.Walk.{AllTried, IsRuledOut, events_in};

use crate::best::Best;
use crate::follower::{Followed, Follower};
use crate::placed::Placed;
use crate::tries::{Tries, are_at_end, are_later};
use order_model::PlanKind;
use std::alloc::{AllocError, Global};
use std::mem;
use task_base::{Entry, Script};

/// A search as it goes: the heads of the seats, the events that are placed, where the next head to be tried may stand at the
/// earliest, the longest beginning that was given up, and what has followed the placed events.
#[derive(Drop)]
pub(crate) struct Walk {
    pub heads: Vec<usize>,
    pub path: Vec<Placed>,
    pub start: usize,
    pub best: Best,
    pub follower: Follower,
}

impl Walk {
    /// Nothing is placed, and nothing was tried. The error is out of memory.
    pub(crate) fn open(
        alloc: Global,
        script: &Script,
        kind: PlanKind,
        tries: &Tries,
    ) -> Result<Walk, AllocError>
        requires plan { IsSound script.now }
        requires guest { kind ≡ PlanKind.Open → guest_runner script.now ≡ None }
        ensures heads { IfOk result (λ walk. walk.heads.items ≡ tries.now.heads.items) }
        ensures path { IfOk result (λ walk. walk.path.items ≡ []) }
        ensures start { IfOk result (λ walk. walk.start ≡ 0) }
        ensures best { IfOk result (λ walk. walk.best.events.items ≡ []) }
        ensures rest { IfOk result (λ walk. walk.best.rest.items ≡ tries.now.events.items) }
        ensures follower { IfOk result (λ walk. Follows (plan_of kind script.now) [] walk.follower) }
    {
        let heads = Vec::from_slice(alloc, &tries.heads)?;
        let best = Best {
            events: Vec::new(alloc),
            rest: Vec::from_slice(alloc, &tries.events)?,
        };
        let follower = Follower::open(alloc, script, kind)?;
        Ok(Walk {
            heads,
            path: Vec::new(alloc),
            start: 0,
            best,
            follower,
        })
    }

    /// Whether all the events are placed, and, where not a beginning will do, their log may end here.
    pub(crate) fn is_order(&self, prefix: bool, tries: &Tries) -> bool
        ghost known: { Known }
        requires task { known.task ≡ task_of known.task.script prefix tries.now }
        requires walk { IsWalk known self.now }
        ensures order { result ≡ true → IsOrder known.task.script known.task.prefix known.task.tries (events_in self.now.path.items) }
        ensures none { result ≡ false → IsOrder known.task.script known.task.prefix known.task.tries (events_in self.now.path.items) → ⊥ }
    {
        are_at_end(&self.heads, tries.events.len()) && (prefix || self.follower.is_ended())
    }

    /// Tries the head of a seat: places its event where the times and the rules allow it, and else passes it by. The error is out of
    /// memory.
    pub(crate) fn try_head(
        &mut self,
        alloc: Global,
        script: &Script,
        kind: PlanKind,
        tries: &Tries,
        seat: usize,
    ) -> Result<(), AllocError>
        ghost known: { Known }
        requires plan { IsSound script.now }
        requires guest { kind ≡ PlanKind.Open → guest_runner script.now ≡ None }
        requires task { known.task ≡ task_of (plan_of kind script.now) known.task.prefix tries.now }
        requires walk { IsWalk known self.old }
        requires next { IsNext self.old.heads.items self.old.start (length tries.now.events.items) seat }
        requires within { seat < length self.old.heads.items }
        ensures walk { IfOk result (λ _. IsWalk known self.new) }
        ensures best { IfOk result (λ _. self.new.best ≡ self.old.best) }
    {
        let index = self.heads[seat];
        let event = tries.events[index];
        self.heads[seat] = tries.after[index];
        if !are_later(&tries.least, &self.heads, event) {
            self.pass_by(seat, index);
            return Ok(());
        }
        if goes_on(
            alloc,
            script,
            kind,
            &self.path,
            &mut self.follower,
            event.entry,
        )? {
            self.path.push(Placed { index, event })?;
            self.start = 0;
            return Ok(());
        }
        self.pass_by(seat, index);
        Ok(())
    }

    /// Sets the head of a seat, which the search has passed by.
    fn pass_by(&mut self, seat: usize, index: usize)
        requires seat { seat < length self.old.heads.items }
        requires index { index < 2 ^ 32 }
        ensures heads { self.new.heads.items ≡ slice_set self.old.heads.items seat index }
        ensures start { self.new.start ≡ index + 1 }
        ensures path { self.new.path ≡ self.old.path }
        ensures best { self.new.best ≡ self.old.best }
        ensures follower { self.new.follower ≡ self.old.follower }
    {
        self.heads[seat] = index;
        self.start = index + 1;
    }

    /// The longest beginning that was given up.
    pub(crate) fn into_best(self) -> Best
        ensures { result ≡ self.best }
    {
        let Walk { best, follower, .. } = self;
        follower.discard();
        best
    }

    /// Takes off the event that was placed last, and goes on after it; false where none is placed. The error is out of memory.
    pub(crate) fn back(
        &mut self,
        alloc: Global,
        script: &Script,
        kind: PlanKind,
    ) -> Result<bool, AllocError>
        ghost known: { Known }
        requires plan { IsSound script.now }
        requires guest { kind ≡ PlanKind.Open → guest_runner script.now ≡ None }
        requires script { known.task.script ≡ plan_of kind script.now }
        requires walk { IsWalk known self.old }
        requires tried { AllTried known.task self.old.heads.items self.old.start }
        requires ruled { IsRuledOut known.task known.longest (events_in self.old.path.items) }
        ensures { IfOk result (λ went. GoesBack known went self.old self.new) }
    {
        match self.path.pop() {
            None => Ok(false),
            Some(placed) => {
                self.heads[placed.event.entry.seat as usize] = placed.index;
                self.start = placed.index + 1;
                follow_anew(alloc, script, kind, &self.path, &mut self.follower)?;
                Ok(true)
            }
        }
    }
}

/// Follows an entry after these events, and answers whether it may come. Where it may not, the events alone have been followed. The
/// error is out of memory.
fn goes_on(
    alloc: Global,
    script: &Script,
    kind: PlanKind,
    path: &[Placed],
    follower: &mut Follower,
    entry: Entry,
) -> Result<bool, AllocError>
    requires plan { IsSound script.now }
    requires guest { kind ≡ PlanKind.Open → guest_runner script.now ≡ None }
    requires legal { IsLegal (plan_of kind script.now) (entries_of (events_in path.now)) }
    requires few { length path.now < 2 ^ 32 }
    requires number { length (entries_of (events_in path.now)) < u32.MAX }
    requires follows { Follows (plan_of kind script.now) (entries_of (events_in path.now)) follower.old }
    ensures goes_on { IfOk result (GoesOn (plan_of kind script.now) (entries_of (events_in path.now)) entry follower.new) }
    ensures stays { IfOk result (λ came. came ≡ false → Follows (plan_of kind script.now) (entries_of (events_in path.now)) follower.new) }
{
    match follower.follow(script, entry) {
        Followed::Came => Ok(true),
        Followed::Stayed => Ok(false),
        Followed::Strayed => {
            follow_anew(alloc, script, kind, path, follower)?;
            Ok(false)
        }
    }
}

/// Puts one that has followed these events in the place of this one. The error is out of memory.
fn follow_anew(
    alloc: Global,
    script: &Script,
    kind: PlanKind,
    path: &[Placed],
    follower: &mut Follower,
) -> Result<(), AllocError>
    requires plan { IsSound script.now }
    requires guest { kind ≡ PlanKind.Open → guest_runner script.now ≡ None }
    requires legal { IsLegal (plan_of kind script.now) (entries_of (events_in path.now)) }
    requires few { length path.now < 2 ^ 32 }
    ensures { IfOk result (λ _. Follows (plan_of kind script.now) (entries_of (events_in path.now)) follower.new) }
{
    let mut fresh = Follower::open(alloc, script, kind)?;
    for placed in path {
        fresh.follow(script, placed.event.entry);
    }
    mem::replace(follower, fresh).discard();
    Ok(())
}

/// The seat whose head comes first of those that stand from the start on and before the end; the number of seats where there is none.
pub(crate) fn next_seat(heads: &[usize], start: usize, end: usize) -> usize
    ensures { IsNext heads.now start end result }
{
    let mut found = heads.len();
    let mut least = end;
    for seat in 0..heads.len() {
        let head = heads[seat];
        if start <= head && head < least {
            found = seat;
            least = head;
        }
    }
    found
}
