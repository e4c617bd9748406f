ghost use Rattle.std.specs.Prelude.{◌++◌, ℕ, List, length, IfOk};
ghost use Rattle.std.specs.List.{filter_map};
ghost use Rattle.sequence_manager.specs.Pasts.{IsMainScript};
ghost use Rattle.sequence_manager.specs.Postings.{MainPosting, posting_of_action, posting_of_step, room_of};
ghost use Rattle.sequence_manager.specs.Queues.{IsTable};
ghost use Rattle.sequence_manager.specs.Rooms.{AreCounts, CanCount};

use std::alloc::{AllocError, Global};
use task_base::{Action, Script, Step};

/// How many tasks a script posts to each of its main queues. The error is want of memory.
pub(crate) fn rooms(alloc: Global, script: &Script) -> Result<Vec<u32>, AllocError>
    requires { IsMainScript script.now }
    ensures { IfOk result (λ rooms. IsTable (room_of script.now) (length script.now.queues) rooms.items) }
{
    let mut rooms = vec![in alloc; 0; script.queues.len()]?;
    for task in script.tasks.as_slice() {
        count_steps(&mut rooms, task.steps.as_slice());
    }
    count_actions(&mut rooms, script.actions.as_slice());
    Ok(rooms)
}

// Counts what some steps post to main queues.
fn count_steps(counts: &mut Vec<u32>, steps: &[Step])
    requires { (queues : ℕ) × (before : List MainPosting) × CanCount queues counts.old.items before (filter_map posting_of_step steps.now) }
    ensures { (queues : ℕ) (before : List MainPosting) → AreCounts queues counts.old.items before
        → AreCounts queues counts.new.items (before ++ filter_map posting_of_step steps.now) }
{
    for step in steps {
        if let Step::Main { queue, .. } = step {
            counts[*queue as usize] += 1;
        }
    }
}

// Counts what some actions post to main queues.
fn count_actions(counts: &mut Vec<u32>, actions: &[Action])
    requires { (queues : ℕ) × (before : List MainPosting) × CanCount queues counts.old.items before (filter_map posting_of_action actions.now) }
    ensures { (queues : ℕ) (before : List MainPosting) → AreCounts queues counts.old.items before
        → AreCounts queues counts.new.items (before ++ filter_map posting_of_action actions.now) }
{
    for action in actions {
        if let Action::Main { queue, .. } = action {
            counts[*queue as usize] += 1;
        }
    }
}
