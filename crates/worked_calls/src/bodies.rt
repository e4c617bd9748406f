//! A body that counts its steps.
ghost use Rattle.std.specs.Prelude.{◌≡◌, IfOk};
ghost use Rattle.env_core.specs.Calls.{AreFresh};

use std::alloc::{AllocError, Global};
use std::marker::Model;
use std::sync::Arc;
use std::sync::atomic::{AtomicU64, Ordering};
use task_base::{Cell, Rows, Script, Step};
use task_body::{Act, ScriptBody, TaskBody};

/// A word that bodies share.
pub type Word = Arc<AtomicU64, Global>;

/// A body that raises a word at each call of its step.
#[derive(Drop)]
pub struct CountedBody {
    body: ScriptBody,
    word: Word,
}

impl Model for CountedBody {
    ghost use Rattle.task_body.specs.Bodies.{BodyView};

    ghost Value = { BodyView };

    ghost view = { λ b. b.body };
}

impl TaskBody for CountedBody {
    ghost whole = { λ b. b.whole };

    ghost rest = { λ b. b.rest };

    fn step(&mut self, cell: &mut Cell) -> Act {
        self.word.fetch_add(1, Ordering::SeqCst);
        self.body.step(cell)
    }
}

/// A body of these steps.
fn body_of(alloc: Global, steps: &Rows<Step>, word: &Word) -> Result<CountedBody, AllocError>
    ensures whole { IfOk result (λ body. body.whole ≡ steps.now.items) }
    ensures rest { IfOk result (λ body. body.rest ≡ steps.now.items) }
{
    Ok(CountedBody {
        body: ScriptBody::new(steps.copy(alloc)?),
        word: Arc::try_clone(word)?,
    })
}

/// The bodies of a script's tasks, which share a word.
pub fn bodies_of(
    alloc: Global,
    script: &Script,
    word: &Word,
) -> Result<Vec<Box<CountedBody>>, AllocError>
    ensures { IfOk result (λ bodies. AreFresh bodies.items (λ body. body.value.whole) (λ body. body.value.rest) script.now) }
{
    let tasks = script.tasks.as_slice();
    let mut bodies = Vec::new(alloc);
    for task in tasks {
        let body = body_of(alloc, &task.steps, word)?;
        bodies.push(Box::new(alloc, body)?)?;
    }
    Ok(bodies)
}
