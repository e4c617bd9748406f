ghost use Rattle.std.specs.Prelude.{◌≡◌, None, IfOk};
ghost use Rattle.script_model.specs.Laws.Sound.{IsSound};
ghost use Rattle.live_core.specs.Opening.{guest_runner};
ghost use Rattle.order_model.specs.Plans.{plan_of};
ghost use Rattle.order_search.specs.Arranged.{IsArranged};
ghost use Rattle.order_search.specs.Search.{IsStep, Stood, task_of};
ghost use Rattle.order_search.specs.Walk.{IsTask, Task};

use crate::arranged::Arranged;
use crate::best::{Best, events_of};
use crate::tries::Tries;
use crate::walk::{Walk, next_seat};
use order_model::PlanKind;
use std::alloc::{AllocError, Global};
use task_base::Script;

/// What a step of the search comes to.
#[derive(Clone, Copy, Debug)]
pub(crate) enum Step {
    /// The search goes on.
    Goes,
    /// What is placed is an order.
    Order,
    /// There is none.
    NoOrder,
}

/// Searches depth first for an order of the events that are tried, in so many steps at most. The error is out of memory.
pub(crate) fn search(
    alloc: Global,
    script: &Script,
    kind: PlanKind,
    prefix: bool,
    tries: &Tries,
    most: u64,
) -> Result<Arranged, AllocError>
    requires plan { IsSound script.now }
    requires guest { kind ≡ PlanKind.Open → guest_runner script.now ≡ None }
    requires task { IsTask (task_of (plan_of kind script.now) prefix tries.now) }
    ensures { IfOk result (λ found. IsArranged (plan_of kind script.now) prefix tries.now.events.items found) }
{
    let mut walk = Walk::open(alloc, script, kind, tries)?;
    for _ in 0..most {
        match go_on(alloc, script, kind, prefix, tries, &mut walk)? {
            Step::Goes => {}
            Step::Order => {
                let events = events_of(alloc, &walk.path)?;
                return Ok(Arranged::Order { events });
            }
            Step::NoOrder => {
                let Best { events, rest } = walk.into_best();
                return Ok(Arranged::NoOrder { events, rest });
            }
        }
    }
    walk.best
        .keep(alloc, &tries.events, &walk.path, &walk.heads)?;
    let Best { events, rest } = walk.into_best();
    Ok(Arranged::GaveUp { events, rest })
}

/// One step: an event is tried, or one is taken off where none is left to be tried. The error is out of memory.
fn go_on(
    alloc: Global,
    script: &Script,
    kind: PlanKind,
    prefix: bool,
    tries: &Tries,
    walk: &mut Walk,
) -> Result<Step, AllocError>
    ghost task: { Task }
    requires plan { IsSound script.now }
    requires guest { kind ≡ PlanKind.Open → guest_runner script.now ≡ None }
    requires task { task ≡ task_of (plan_of kind script.now) prefix tries.now }
    requires stood { Stood task walk.old }
    ensures { IfOk result (λ step. IsStep task walk.new step) }
{
    if walk.is_order(prefix, tries) {
        return Ok(Step::Order);
    }
    let seat = next_seat(&walk.heads, walk.start, tries.events.len());
    if seat < walk.heads.len() {
        walk.try_head(alloc, script, kind, tries, seat)?;
        return Ok(Step::Goes);
    }
    walk.best
        .keep(alloc, &tries.events, &walk.path, &walk.heads)?;
    if walk.back(alloc, script, kind)? {
        return Ok(Step::Goes);
    }
    Ok(Step::NoOrder)
}
