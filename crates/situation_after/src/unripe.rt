//! Which tasks are not ripe after an entry.
ghost use Rattle.std.specs.Prelude.{◌≡◌, ◌≤◌, IfOk, Some, filter, length, nat_le};
ghost use Rattle.std.specs.List.{prefix_len};
ghost use Rattle.list_laws.specs.Sorts.{insert_by};
ghost use Rattle.log_count.specs.After.{unripe_after};
ghost use Rattle.situation.specs.Onward.{new_unripe, not_later, put_in, unripe_stays};
ghost use Rattle.situation_after.specs.Counted.{RipeFits};
ghost use Rattle.task_model.specs.Phase.{phase_after};

use crate::kinds::{is_tick_from, phase_after};
use crate::line::task_stays;
use situation_steps::{Situation, Unripe, effective_at};
use std::alloc::{AllocError, Global};
use task_base::{Kind, Phase, Script};
use task_traits::forbids;

/// Whether a task stays unripe at an entry.
fn unripe_stays(script: &Script, s: &Situation, kind: Kind, u: Unripe) -> bool
    ensures { result ≡ unripe_stays script.now (phase_after s.now.phase kind) kind u }
{
    let phase = phase_after(s.phase, kind);
    !is_tick_from(u.ripe, kind) && task_stays(script, phase, kind, u.task, u.home, u.delay)
}

/// The delayed task that an entry posts, by the moment and the phase.
fn new_unripe(script: &Script, now: u64, phase: Phase, kind: Kind) -> Option<Unripe>
    requires { RipeFits now kind }
    ensures { result ≡ new_unripe script.now now phase kind }
{
    match kind {
        Kind::Post {
            task,
            runner,
            delay,
            ok,
        } => {
            if ok && delay > 0 && !forbids(phase, effective_at(script, runner, delay)) {
                Some(Unripe {
                    task,
                    home: runner,
                    delay,
                    ripe: now + delay,
                })
            } else {
                None
            }
        }
        _ => None,
    }
}

/// How many tasks become ripe at a moment or before.
fn ripe_by(unripe: &[Unripe], moment: u64) -> usize
    ensures place { result ≡ prefix_len (λ u. nat_le u.ripe moment) unripe.now }
    ensures within { result ≤ length unripe.now }
{
    unripe.iter().take_while(|u| u.ripe <= moment).count()
}

/// With one more task in its place. The error is out of memory.
fn put_at(u: Unripe, mut unripe: Vec<Unripe>) -> Result<Vec<Unripe>, AllocError>
    ensures { IfOk result (λ more. more.items ≡ insert_by not_later u unripe.items) }
{
    let place = ripe_by(&unripe, u.ripe);
    unripe.insert(place, u)?;
    Ok(unripe)
}

/// With one more task in its place, if there is one. The error is out of memory.
fn put_in(one: Option<Unripe>, unripe: Vec<Unripe>) -> Result<Vec<Unripe>, AllocError>
    ensures { IfOk result (λ more. more.items ≡ put_in one unripe.items) }
{
    match one {
        None => Ok(unripe),
        Some(u) => put_at(u, unripe),
    }
}

/// Which tasks stay unripe at an entry. The error is out of memory.
fn staying(
    alloc: Global,
    script: &Script,
    s: &Situation,
    kind: Kind,
) -> Result<Vec<Unripe>, AllocError>
    ensures { IfOk result (λ left. left.items ≡ filter (unripe_stays script.now (phase_after s.now.phase kind) kind) s.now.unripe) }
{
    s.unripe
        .iter()
        .copied()
        .filter(|u| unripe_stays(script, s, kind, *u))
        .collect(alloc)
}

/// Which tasks are not ripe after an entry, in the order in which they become ripe. The error is out of memory.
pub(crate) fn unripe_after(
    alloc: Global,
    script: &Script,
    s: &Situation,
    kind: Kind,
) -> Result<Vec<Unripe>, AllocError>
    requires { RipeFits s.now.now kind }
    ensures { IfOk result (λ left. left.items ≡ unripe_after script.now s.now kind) }
{
    let one = new_unripe(script, s.moment, phase_after(s.phase, kind), kind);
    let left = staying(alloc, script, s, kind)?;
    put_in(one, left)
}
