ghost use Rattle.std.specs.Prelude.{◌≡◌, ◌≤◌, [], IfOk};
ghost use Rattle.task_model.specs.Seats.{is_free};
ghost use Rattle.hist_model.specs.Script.{is_whole};
ghost use Rattle.script_model.specs.Laws.Sound.{IsSound};
ghost use Rattle.env_core.specs.Calls.{AreFresh};
ghost use Rattle.env_step.specs.Hands.{AreInHand};

use env_core::Env;
use env_step::Hands;
use std::alloc::{AllocError, Global};
use std::marker::Model;
use task_base::{Rows, Script, SeatNo, Step};
use task_body::ScriptBody;

/// A log that is followed: the environment in which its entries came so far, and what each seat has in hand.
///
/// Contracts see it as the script and the entries so far.
#[derive(Drop)]
pub struct Replay {
    pub(crate) env: Env<ScriptBody>,
    pub(crate) hands: Hands,
}

impl Model for Replay {
    ghost use Rattle.env_core.specs.Views.{EnvView};
    ghost use Rattle.env_step.specs.Hands.{AreInHand};

    ghost Value = { EnvView };

    ghost view = { λ r. r.env };

    ghost invariant = { λ r. AreInHand r.env r.hands };
}

impl Replay {
    /// The environment of a script, in which nothing was entered. The error is want of memory.
    pub fn open(alloc: Global, script: &Script) -> Result<Replay, AllocError>
        requires { IsSound script.now }
        ensures script { IfOk result (λ replay. replay.script ≡ script.now) }
        ensures empty { IfOk result (λ replay. replay.history ≡ []) }
    {
        // The environment comes last, and the script's copy right before it: what is dropped where memory is short are lists alone.
        let hands = Hands::free(alloc, script.workers + 1)?;
        let bodies = bodies_of(alloc, script)?;
        let copy = script.copy(alloc)?;
        let env = Env::open(alloc, copy, bodies)?;
        Ok(Replay { env, hands })
    }

    /// The environment as the entries so far have left it, and what each seat has in hand.
    pub fn into_parts(self) -> (Env<ScriptBody>, Hands)
        ensures env { result.0 ≡ self }
        ensures hands { AreInHand self result.1 }
    {
        let Replay { env, hands } = self;
        (env, hands)
    }

    /// Drops it, as `discard` does its parts.
    pub fn discard(self) {
        let Replay { env, hands } = self;
        discard(env, hands);
    }

    /// Whether the script is finished, no seat runs a task, and none holds an item.
    pub fn is_whole(&self) -> bool
        ensures { result ≡ is_whole self.now.script self.now.history }
    {
        self.env.action().is_none() && self.hands.all_free()
    }

    /// Whether the seat runs nothing and is inside no job.
    pub fn is_free(&self, seat: SeatNo) -> bool
        requires { seat ≤ self.now.script.workers }
        ensures { result ≡ is_free self.now.history seat }
    {
        self.hands.is_free(seat)
    }
}

/// Drops the parts of a replay, in the crate that has to know how, so that those above need not prove it too.
pub fn discard(env: Env<ScriptBody>, hands: Hands) {
    drop(env);
    drop(hands);
}

/// The bodies of a script's tasks, each in the place of its task. The error is want of memory.
fn bodies_of(alloc: Global, script: &Script) -> Result<Vec<Box<ScriptBody>>, AllocError>
    ensures { IfOk result (λ bodies. AreFresh bodies.items (λ body. body.value.whole) (λ body. body.value.rest) script.now) }
{
    let mut bodies = Vec::with_capacity(alloc, script.tasks.len())?;
    for task in script.tasks.as_slice() {
        bodies.push(Box::new(alloc, body_of(alloc, &task.steps)?)?)?;
    }
    Ok(bodies)
}

/// The body of a task with these steps. The error is want of memory.
fn body_of(alloc: Global, steps: &Rows<Step>) -> Result<ScriptBody, AllocError>
    ensures whole { IfOk result (λ body. body.whole ≡ steps.now.items) }
    ensures rest { IfOk result (λ body. body.rest ≡ steps.now.items) }
{
    Ok(ScriptBody::new(steps.copy(alloc)?))
}
