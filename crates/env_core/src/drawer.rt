ghost use Rattle.std.specs.Prelude.{◌≡◌, ◌<◌, map, length, true, is_some, unwrap_or, slice_get, slice_set, IfOk, Some, None};
ghost use Rattle.env_core.specs.Drawer.{kept_if};

use std::alloc::{AllocError, Global};
use task_base::TaskId;
use task_body::TaskBody;

/// The bodies in a drawer, each in the place of its task. The error is want of memory.
pub(crate) fn drawer<B: TaskBody>(
    alloc: Global,
    bodies: Vec<Box<B>>,
) -> Result<Vec<Option<Box<B>>>, AllocError>
    ensures { IfOk result (λ drawer. drawer.items ≡ map Some bodies.items) }
{
    let mut drawer = Vec::with_capacity(alloc, bodies.len())?;
    for body in bodies {
        drawer.push(Some(body))?;
    }
    Ok(drawer)
}

/// Drops the body of a task whose post was refused.
pub(crate) fn keep_if<B: TaskBody>(ok: bool, bodies: &mut Vec<Option<Box<B>>>, task: TaskId)
    requires { task < length bodies.old.items }
    ensures { bodies.new.items ≡ kept_if ok bodies.old.items task }
{
    if !ok {
        bodies[task as usize] = None;
    }
}

/// Moves a task's body out of the drawer, which has it.
pub(crate) fn take_body<B: TaskBody>(bodies: &mut Vec<Option<Box<B>>>, task: TaskId) -> Box<B>
    requires { is_some (unwrap_or (slice_get bodies.old.items task) None) ≡ true }
    ensures body { slice_get bodies.old.items task ≡ Some (Some result) }
    ensures after { bodies.new.items ≡ slice_set bodies.old.items task None }
{
    bodies[task as usize].take().unwrap()
}
