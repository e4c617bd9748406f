ghost use Rattle.std.specs.Prelude.{◌≡◌, ◌≢◌, ◌≤◌, ℕ, None, true};
ghost use Rattle.task_model.specs.Seats.{holding, is_free};
ghost use Rattle.hist_model.specs.Legal.{IsLegal};
ghost use Rattle.hist_model.specs.Views.{own_entries};
ghost use Rattle.env_core.specs.Calls.{CanEnd, CanEndMain, entry_of};
ghost use Rattle.env_core.specs.Views.{Enters};
ghost use Rattle.env_step.specs.Hands.{IsAtTask};
ghost use Rattle.env_step.specs.Steps.{IsOfReading, IsStep};

use crate::hand::{AtTask, Hand, advance};
use crate::wait::Wait;
use env_core::Env;
use task_base::{Kind, SeatNo, TaskId};
use task_body::{Act, Assignment, ScriptBody};

/// A seat that runs a task does its next act step, or ends it where none is left.
pub fn step_of_task(
    env: &mut Env<ScriptBody>,
    seat: SeatNo,
    at: AtTask,
) -> (Hand, Result<Kind, Wait>)
    requires legal { IsLegal env.old.script env.old.history }
    requires known { seat ≤ env.old.script.workers }
    requires at { IsAtTask env.old seat at.work at.next }
    ensures { (reading : ℕ) → IsStep env.old env.new seat reading result.0 result.1 }
{
    let (work, act) = at.into_parts();
    match act {
        Act::Finished => {
            let kind = end(env, seat, work);
            (Hand::Free, Ok(kind))
        }
        _ => act_of(env, seat, work, act),
    }
}

/// A seat ends its task. Answers the entry.
fn end(env: &mut Env<ScriptBody>, seat: SeatNo, work: Assignment<ScriptBody>) -> Kind
    requires worker { 1 ≤ seat → CanEnd env.old seat work }
    requires driver { seat ≡ 0 → CanEndMain env.old seat work }
    ensures enters { Enters env.old env.new seat result }
    ensures reading { (reading : ℕ) → IsOfReading env.old.history reading result }
    ensures free { holding env.old.history seat ≡ None → is_free (own_entries seat env.new.history) seat ≡ true }
{
    let task = work.task();
    let left = work.value();
    if seat == 0 {
        let _ = env.main_end(seat, work);
        Kind::MainEnd { task, left }
    } else {
        let _ = env.end(seat, work);
        Kind::End { task, left }
    }
}

/// A seat does the next act step of its task.
fn act_of(
    env: &mut Env<ScriptBody>,
    seat: SeatNo,
    work: Assignment<ScriptBody>,
    act: Act,
) -> (Hand, Result<Kind, Wait>)
    requires known { seat ≤ env.old.script.workers }
    requires at { IsAtTask env.old seat work act }
    requires more { act ≢ Act.Finished }
    ensures { (reading : ℕ) → IsStep env.old env.new seat reading result.0 result.1 }
{
    let task = work.task();
    let ok = env.act(seat, act);
    let kind = entry_of(task, act, ok).unwrap();
    (Hand::Task(advance(work)), Ok(kind))
}

/// The entry of an act step, with the reply to a post.
fn entry_of(task: TaskId, act: Act, ok: bool) -> Option<Kind>
    ensures { result ≡ entry_of task act ok }
{
    match act {
        Act::Post {
            task,
            runner,
            delay,
        } => Some(Kind::Post {
            task,
            runner,
            delay,
            ok,
        }),
        Act::Main { task, queue, delay } => Some(Kind::Main {
            task,
            queue,
            delay,
            ok,
        }),
        Act::Enter(scope) => Some(Kind::Enter { task, scope }),
        Act::Leave => Some(Kind::Leave { task }),
        Act::Did(_) | Act::Finished => None,
    }
}
