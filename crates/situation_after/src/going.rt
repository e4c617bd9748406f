//! Where a seat's next entry leads.
ghost use Rattle.std.specs.Prelude.{◌≡◌, ◌≤◌, ℕ, IfOk};
ghost use Rattle.std.specs.Option.{IfSome, option_map};
ghost use Rattle.situation.specs.Situation.{Situation as AnySituation};
ghost use Rattle.log_count.specs.After.{after_in};
ghost use Rattle.log_count.specs.Ways.{next_in};
ghost use Rattle.situation_steps.specs.Reached.{IsReached};

use crate::step::after;
use situation_steps::Situation;
use std::alloc::{AllocError, Global};
use task_base::{Script, SeatNo};

/// The situation to which the entry leads that a seat may make next, if it may make one; a tick reads this moment, in
/// microseconds. The error is out of memory.
pub fn onward(
    alloc: Global,
    script: &Script,
    s: &Situation,
    moment: u64,
    seat: SeatNo,
) -> Result<Option<Situation>, AllocError>
    requires reached { IsReached script.now s.now }
    requires known { seat ≤ script.now.workers }
    ensures leads { (tick : AnySituation → ℕ) → tick s.now ≡ moment
        → IfOk result (λ found. found ≡ option_map (after_in script.now s.now seat) (next_in script.now tick s.now seat)) }
    ensures reached { IfOk result (λ found. IfSome found (IsReached script.now)) }
{
    match s.next(script, moment, seat) {
        None => Ok(None),
        Some(kind) => {
            let there = after(alloc, script, s, seat, kind)?;
            Ok(Some(there))
        }
    }
}
