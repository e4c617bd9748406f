ghost use Rattle.std.specs.Prelude.{◌≡◌, ◌≤◌, IfOk};
ghost use Rattle.script_model.specs.Laws.Sound.{IsSound};
ghost use Rattle.wide_script.specs.Drawn.{drawn};
ghost use Rattle.wide_script.specs.Draws.{drawing};
ghost use Rattle.wide_script.specs.Wide.{script_or, wide};

use crate::draws::{Draws, one_of};
use crate::parts::Parts;
use crate::text::text_of;
use std::alloc::{AllocError, Global};
use task_base::{MOST_BYTES, Script};
use task_script::{ScriptFault, generate, read_script};

/// A script of `size` tasks, 1 to 8,192, with all that it is to have, drawn from a number: the same words always give the same
/// script, and one that can be read. The error is out of memory.
#[tactic(auto, unfolding(crate::specs::Wide::wide))]
pub fn wide_script(
    alloc: Global,
    number: u64,
    size: u32,
    parts: Parts,
) -> Result<Script, AllocError>
    requires some { 1 ≤ size }
    requires few { size ≤ 8192 }
    ensures script { IfOk result (λ script. script ≡ wide number size parts) }
    ensures sound { IfOk result IsSound }
{
    let draws = Draws::new(alloc, number, size, parts)?;
    let text = text_of(alloc, &drawn_script(alloc, &draws)?)?;
    if text.len() > MOST_BYTES {
        return generate(alloc, number, size);
    }
    match read_script(alloc, &text) {
        Ok(script) => Ok(script),
        Err(ScriptFault::Bad { .. }) => generate(alloc, number, size),
        Err(ScriptFault::Memory(error)) => Err(error),
    }
}

/// The script that is drawn.
#[tactic(auto, unfolding(crate::specs::Drawn::drawn))]
fn drawn_script(alloc: Global, draws: &Draws) -> Result<Script, AllocError>
    requires { draws.now.size ≤ 8192 }
    ensures { IfOk result (λ script. script ≡ drawn draws.now) }
{
    let runners = draws.runners(alloc)?;
    let queues = draws.queues(alloc)?;
    let tasks = draws.tasks(alloc)?;
    let jobs = draws.jobs(alloc)?;
    let actions = draws.actions(alloc)?;
    Ok(Script {
        workers: draws.workers(),
        foreground: draws.foreground(),
        foreground_best: draws.best(),
        background: one_of(3, draws.number(0), 21),
        threshold: 500 * u64::from(one_of(4, draws.number(1), 0)),
        runners,
        queues,
        tasks,
        jobs,
        actions,
    })
}
