ghost use Rattle.std.specs.Prelude.{◌≡◌, ◌+◌, [], length, map, replicate, None, IfOk};
ghost use Rattle.pool_core.specs.Pasts.{IsPoolScript};
ghost use Rattle.pool_core.specs.Queues.{empty_lanes};
ghost use Rattle.task_runners.specs.Table.{table_of};
ghost use Rattle.task_sequence.specs.Sequences.{fresh};

use crate::lanes::Lanes;
use crate::pool_job::Holder;
use crate::posting::Posting;
use delayed_manager::Delayed;
use std::alloc::{AllocError, Global};
use task_base::{Priority, Script, TaskId};
use task_runners::RunnerTable;
use task_sequence::Sequences;

/// What knows of the runners and sequences of a script of so many tasks, of what may be taken and of what is delayed, at the
/// start of its history. The error is want of memory.
pub(super) fn fresh_parts(
    alloc: Global,
    script: &Script,
    tasks: u32,
) -> Result<(RunnerTable, Sequences, Lanes, Delayed), AllocError>
    requires fits { IsPoolScript script.now }
    requires tasks { tasks ≡ length script.now.tasks }
    ensures runners { IfOk result (λ parts. parts.0 ≡ table_of script.now.runners script.now.background) }
    ensures sequences { IfOk result (λ parts. parts.1.sequences ≡ replicate (length script.now.runners + tasks) fresh) }
    ensures room { IfOk result (λ parts. parts.1.room ≡ tasks) }
    ensures lanes { IfOk result (λ parts. parts.2 ≡ empty_lanes script.now) }
    ensures delayed { IfOk result (λ parts. parts.3 ≡ record { held = []; room = tasks }) }
{
    let sequences = script.runners.len() as u32 + tasks;
    Ok((
        RunnerTable::new(alloc, script)?,
        Sequences::new(alloc, sequences, tasks)?,
        Lanes::new(alloc, script)?,
        Delayed::new(alloc, tasks)?,
    ))
}

/// The priority that each runner has at first. The error is want of memory.
pub(super) fn first_priorities(alloc: Global, script: &Script) -> Result<Vec<Priority>, AllocError>
    ensures { IfOk result (λ priorities. priorities.items ≡ map (λ r. r.traits.priority) script.now.runners) }
{
    let mut priorities = Vec::with_capacity(alloc, script.runners.len())?;
    for runner in script.runners.as_slice() {
        priorities.push(runner.traits.priority)?;
    }
    Ok(priorities)
}

/// Empty places for so many tasks, and for what so many seats run and for what they are inside. The error is want of memory.
pub(super) fn empty_places(
    alloc: Global,
    tasks: usize,
    seats: usize,
) -> Result<
    (
        Vec<Option<Posting>>,
        Vec<Option<TaskId>>,
        Vec<Option<Holder>>,
    ),
    AllocError,
>
    ensures postings { IfOk result (λ places. places.0.items ≡ replicate tasks None) }
    ensures seats { IfOk result (λ places. places.1.items ≡ replicate seats None) }
    ensures holders { IfOk result (λ places. places.2.items ≡ replicate seats None) }
{
    Ok((
        vec![in alloc; None; tasks]?,
        vec![in alloc; None; seats]?,
        vec![in alloc; None; seats]?,
    ))
}
