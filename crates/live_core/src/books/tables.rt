ghost use Rattle.std.specs.Prelude.{◌≡◌, ◌≤◌, length, replicate, false, IfOk};
ghost use Rattle.task_base.specs.declared.limits.TheConstants.{MOST_TASKS};
ghost use Rattle.live_core.specs.Books.{IsFirstUnmarked, fresh_mark, idle, mark_step, marked, marked_by};

use crate::books::{JobMark, Seat};
use std::alloc::{AllocError, Global};
use task_base::{Step, Task, TaskId};

/// That none of so many seats does anything. The error is out of memory.
pub(super) fn fresh_seats(alloc: Global, count: usize) -> Result<Vec<Seat>, AllocError>
    ensures { IfOk result (λ seats. seats.items ≡ replicate count idle) }
{
    let idle = Seat {
        runs: None,
        holds: None,
    };
    vec![in alloc; idle; count]
}

/// No mark at any of that many tasks. The error is out of memory.
pub(super) fn no_marks(alloc: Global, count: usize) -> Result<Vec<bool>, AllocError>
    ensures { IfOk result (λ marks. marks.items ≡ replicate count false) }
{
    vec![in alloc; false; count]
}

/// A mark for each job: none was posted. The error is out of memory.
pub(super) fn fresh_jobs(alloc: Global, count: usize) -> Result<Vec<JobMark>, AllocError>
    ensures { IfOk result (λ jobs. jobs.items ≡ replicate count fresh_mark) }
{
    let fresh = JobMark {
        posted: false,
        cancelled: false,
    };
    vec![in alloc; fresh; count]
}

/// For each task, whether a step of some task posts it. The error is out of memory.
pub(super) fn kept_tasks(alloc: Global, tasks: &[Task]) -> Result<Vec<bool>, AllocError>
    ensures { IfOk result (λ kept. kept.items ≡ marked_by tasks.now (replicate (length tasks.now) false)) }
{
    let mut kept = vec![in alloc; false; tasks.len()]?;
    for task in tasks {
        mark_posted(&mut kept, task.steps.as_slice());
    }
    Ok(kept)
}

// Notes each task that one of these steps posts.
fn mark_posted(kept: &mut Vec<bool>, steps: &[Step])
    ensures { kept.new.items ≡ marked steps.now kept.old.items }
{
    for step in steps {
        mark_step(kept, step);
    }
}

// Notes the task that a step posts, if there is that task.
fn mark_step(kept: &mut Vec<bool>, step: &Step)
    ensures { kept.new.items ≡ mark_step kept.old.items step.now }
{
    match *step {
        Step::Post { task, .. } | Step::Main { task, .. } => {
            if let Some(mark) = kept.get_mut(task as usize) {
                *mark = true;
            }
        }
        _ => {}
    }
}

/// The first task that has no mark in either list, from this one on, or how many tasks there are.
pub(super) fn first_unmarked(kept: &[bool], posted: &[bool], start: TaskId) -> TaskId
    requires there { start ≤ length kept.now }
    requires alike { length posted.now ≡ length kept.now }
    requires few { length kept.now ≤ MOST_TASKS }
    ensures { IsFirstUnmarked kept.now posted.now start result }
{
    let count = kept.len() as TaskId;
    for task in start..count {
        if !kept[task as usize] && !posted[task as usize] {
            return task;
        }
    }
    count
}
