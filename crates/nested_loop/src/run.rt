ghost use Rattle.std.specs.Prelude.{◌≤◌, IfOk};
ghost use Rattle.nested_loop.specs.Nest.{IsLegalNest};
ghost use Rattle.nested_loop.specs.Room.{events_bound};
ghost use Rattle.nested_loop.specs.Sound.{IsSoundNest};

use crate::event::Event;
use crate::limits::{MOST_NEST_ACTIONS, MOST_NEST_STEPS, MOST_NEST_TASKS};
use crate::machine::Machine;
use crate::nest::Nest;
use std::alloc::{AllocError, Global};
use task_base::Rows;

/// Runs a nest: its log, which is the one that is legal. The open loops and tasks are kept in a list, not in calls. All
/// memory is taken before the first event; the error is want of it.
pub fn run_nest(alloc: Global, nest: &Nest) -> Result<Rows<Event>, AllocError>
    requires { IsSoundNest nest.now }
    ensures { IfOk result (λ log. IsLegalNest nest.now log.items) }
{
    let room = most_events(nest);
    let mut log = Rows::new(alloc);
    log.reserve(room)?;
    let mut machine = Machine::new(alloc, nest, room)?;
    while let Some(event) = machine.next_event(nest) {
        log.push_spare(event);
    }
    Ok(log)
}

// How many events the log of a nest has at most: two for each action and each step, and three for each task.
fn most_events(_nest: &Nest) -> usize
    requires { IsSoundNest _nest.now }
    ensures { events_bound _nest.now ≤ result }
{
    2 * MOST_NEST_ACTIONS + 2 * MOST_NEST_STEPS + 3 * MOST_NEST_TASKS
}
