ghost use Rattle.std.specs.Prelude.{◌≡◌, ◌≤◌, length, IfOk};
ghost use Rattle.std.specs.List.{list_any};
ghost use Rattle.task_base.specs.Steps.{is_act};
ghost use Rattle.task_body.specs.Kinds.{view_of};
ghost use Rattle.script_model.specs.Laws.Sound.{IsSound};
ghost use Rattle.env_core.specs.Calls.{AreFresh};

use std::alloc::{AllocError, Global};
use task_base::{Rows, Script, Step, apply, is_act};
use task_body::{Body, OnceBody, ScriptBody, Work};

/// The compute steps of a task, which are its script's, done at once.
#[derive(Drop)]
pub struct Computation<'a> {
    steps: &'a [Step],
}

impl<'a> Work for Computation<'a> {
    ghost steps = { λ c. c.steps.now };

    fn run(self, value: u64) -> u64 {
        self.steps
            .iter()
            .fold(value, |value, step| apply(step, value))
    }
}

/// The bodies of a script's tasks, each in the place of its task. The error is want of memory.
pub fn bodies_of<'a>(
    alloc: Global,
    script: &'a Script,
) -> Result<Vec<Box<Body<Computation<'a>>>>, AllocError>
    requires { IsSound script.now }
    ensures { IfOk result (λ bodies. AreFresh bodies.items (λ body. (view_of body.value).whole) (λ body. (view_of body.value).rest) script.now) }
{
    let mut bodies = Vec::with_capacity(alloc, script.tasks.len())?;
    for task in script.tasks.as_slice() {
        bodies.push(Box::new(alloc, body_of(alloc, &task.steps)?)?)?;
    }
    Ok(bodies)
}

/// The body of a task with these steps: it does them at once where it has some and all compute, else one a call.
fn body_of<'a>(alloc: Global, steps: &'a Rows<Step>) -> Result<Body<Computation<'a>>, AllocError>
    requires { length steps.now.items ≤ u32.MAX }
    ensures whole { IfOk result (λ body. (view_of body).whole ≡ steps.now.items) }
    ensures rest { IfOk result (λ body. (view_of body).rest ≡ steps.now.items) }
{
    let whole = steps.copy(alloc)?;
    if whole.is_empty() || acts(steps.as_slice()) {
        return Ok(Body::Script(ScriptBody::new(whole)));
    }
    let work = Computation {
        steps: steps.as_slice(),
    };
    Ok(Body::Once(OnceBody::new(whole, work)))
}

/// Whether one of the steps makes an entry of its own.
fn acts(steps: &[Step]) -> bool
    ensures { result ≡ list_any is_act steps.now }
{
    steps.iter().any(|step| is_act(step))
}
