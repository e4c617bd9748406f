ghost use Rattle.std.specs.Prelude.{◌≡◌, ℕ, ◌<◌, List, [], ◌∷◌, true, length, Option};
ghost use Rattle.task_base.specs.declared.entry.Kind.TheVariants as kinds;
ghost use Rattle.task_base.specs.declared.script.Action.{Action};
ghost use Rattle.task_base.specs.declared.script.Action.TheVariants as actions;
ghost use Rattle.task_model.specs.Seats.{is_free};
ghost use Rattle.env_crew.specs.Desk.{IsLater, mine, with_own};
ghost use Rattle.env_crew.specs.Driving.{AllFree, AllServed, HasDone, AreLeft, IsWanted, SameDesks};

use crate::desk::Desk;
use crate::items::do_items;
use crate::patience::Patience;
use crate::worker::serve;
use env_io::Gate;
use std::sync::Wait;
use task_base::{JobId, Rows};

/// Serves each of the spare desks once.
fn serve_each<D: Desk, G: Gate, R: Wait>(rt: &R, spare: &mut Rows<D>, gate: &G)
    requires free { AllFree D.desk spare.old.items }
    ensures free { AllFree D.desk spare.new.items }
    ensures same { SameDesks D.desk spare.old.items spare.new.items }
    ensures served { AllServed D.desk spare.old.items spare.new.items }
{
    for place in 0..spare.len() {
        if let Some(desk) = spare.at_mut(place) {
            serve(rt, desk, gate);
        }
    }
}

/// What the driver does while it waits: it serves the spare desks, each once, and waits a little, longer each time. Where there
/// are none and it has waited for long, it sleeps until it is woken. Woken too soon, it sleeps again.
fn pause<D: Desk, G: Gate, R: Wait>(
    rt: &R,
    desk: &mut D,
    spare: &mut Rows<D>,
    gate: &G,
    patience: &mut Patience,
)
    requires free { AllFree D.desk spare.old.items }
    ensures later { IsLater (D.desk desk.old) (D.desk desk.new) }
    ensures entered { mine (D.desk desk.new) ≡ mine (D.desk desk.old) }
    ensures free { AllFree D.desk spare.new.items }
    ensures same { SameDesks D.desk spare.old.items spare.new.items }
    ensures served { AllServed D.desk spare.old.items spare.new.items }
{
    if patience.is_over() && spare.is_empty() {
        desk.rest(rt);
        desk.sleep(rt);
    } else {
        serve_each(rt, spare, gate);
        patience.wait();
    }
}

/// Waits until the pool is idle.
pub(crate) fn flush<D: Desk, G: Gate, R: Wait>(rt: &R, desk: &mut D, spare: &mut Rows<D>, gate: &G)
    requires wanted { IsWanted (D.desk desk.old) kinds.Idle }
    requires free { AllFree D.desk spare.old.items }
    ensures later { IsLater (D.desk desk.old) (D.desk desk.new) }
    ensures entered { mine (D.desk desk.new) ≡ with_own (D.desk desk.old) kinds.Idle }
    ensures free { AllFree D.desk spare.new.items }
    ensures same { SameDesks D.desk spare.old.items spare.new.items }
{
    let mut patience = Patience::new();
    for _ in rt.forever() {
        match desk.try_idle(rt) {
            Ok(()) => return,
            Err(_) => pause(rt, desk, spare, gate, &mut patience),
        }
    }
    unreachable!()
}

/// Waits until nothing blocks shutdown.
pub(crate) fn finish_shutdown<D: Desk, G: Gate, R: Wait>(
    rt: &R,
    desk: &mut D,
    spare: &mut Rows<D>,
    gate: &G,
)
    requires wanted { IsWanted (D.desk desk.old) kinds.Done }
    requires free { AllFree D.desk spare.old.items }
    ensures later { IsLater (D.desk desk.old) (D.desk desk.new) }
    ensures entered { mine (D.desk desk.new) ≡ with_own (D.desk desk.old) kinds.Done }
    ensures free { AllFree D.desk spare.new.items }
    ensures same { SameDesks D.desk spare.old.items spare.new.items }
{
    let mut patience = Patience::new();
    for _ in rt.forever() {
        match desk.try_done(rt) {
            Ok(()) => return,
            Err(_) => pause(rt, desk, spare, gate, &mut patience),
        }
    }
    unreachable!()
}

/// Waits until nobody is inside a job that the driver has cancelled.
pub(crate) fn finish_cancel<D: Desk, G: Gate, R: Wait>(
    rt: &R,
    desk: &mut D,
    spare: &mut Rows<D>,
    job: JobId,
    gate: &G,
)
    requires wanted { IsWanted (D.desk desk.old) (kinds.Cancelled job) }
    requires free { AllFree D.desk spare.old.items }
    ensures later { IsLater (D.desk desk.old) (D.desk desk.new) }
    ensures entered { mine (D.desk desk.new) ≡ with_own (D.desk desk.old) (kinds.Cancelled job) }
    ensures free { AllFree D.desk spare.new.items }
    ensures same { SameDesks D.desk spare.old.items spare.new.items }
{
    let mut patience = Patience::new();
    for _ in rt.forever() {
        match desk.try_cancelled(rt, job) {
            Ok(()) => return,
            Err(_) => pause(rt, desk, spare, gate, &mut patience),
        }
    }
    unreachable!()
}

/// Works on a job until it has its reply: the driver goes into the job where it may, and waits where it may not.
pub(crate) fn join<D: Desk, G: Gate, R: Wait>(
    rt: &R,
    desk: &mut D,
    spare: &mut Rows<D>,
    job: JobId,
    gate: &G,
)
    requires driver { (D.desk desk.old).seat ≡ 0 }
    requires at { (rest : List Action) × AreLeft (D.desk desk.old) (actions.Join job ∷ rest) [] }
    requires sound { job < length (D.desk desk.old).script.jobs }
    requires rests { is_free (mine (D.desk desk.old)) 0 ≡ true }
    requires free { AllFree D.desk spare.old.items }
    ensures done { (clock : ℕ → Option ℕ) → HasDone (actions.Join job) (D.desk desk.old) (D.desk desk.new) clock clock }
    ensures free { AllFree D.desk spare.new.items }
    ensures same { SameDesks D.desk spare.old.items spare.new.items }
{
    let mut patience = Patience::new();
    for _ in rt.forever() {
        match desk.try_joined(rt, job) {
            Ok(_) => return,
            Err(_) => match desk.job_take(rt, job) {
                Some(pass) => {
                    do_items(rt, desk, pass);
                    patience.reset();
                }
                None => pause(rt, desk, spare, gate, &mut patience),
            },
        }
    }
    unreachable!()
}
