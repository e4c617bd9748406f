ghost use Rattle.std.specs.Prelude.{◌≡◌, ◌∷◌, [], ℕ, IfSome, true};
ghost use Rattle.task_base.specs.declared.script.Action.TheVariants as actions;
ghost use Rattle.task_model.specs.Seats.{is_free};
ghost use Rattle.hist_model.specs.Script.{current};
ghost use Rattle.hist_model.specs.Views.{own_entries};
ghost use Rattle.env_core.specs.Agenda.{counted};
ghost use Rattle.env_step.specs.Steps.{IsAtAction, IsStep};

use crate::hand::{Hand, advance};
use crate::wait::Wait;
use env_core::Env;
use task_base::{Action, JobId, Kind};
use task_body::ScriptBody;

/// The driver, who is free, does what the script wants next. A tick is by this reading of the clock.
pub fn step_of_driver(env: &mut Env<ScriptBody>, reading: u64) -> (Hand, Result<Kind, Wait>)
    requires { is_free env.old.history 0 ≡ true }
    ensures { IsStep env.old env.new 0 reading result.0 result.1 }
{
    let made = env.made();
    match env.action() {
        None => (Hand::Free, Err(Wait::Over)),
        Some(action) => step_of_action(env, action, made, reading),
    }
}

/// The driver does what an action wants next that has made so many entries that count.
fn step_of_action(
    env: &mut Env<ScriptBody>,
    action: Action,
    made: u32,
    reading: u64,
) -> (Hand, Result<Kind, Wait>)
    requires at { IsAtAction env.old.script env.old.history 0 action }
    requires counts { IfSome (current env.old.script (own_entries 0 env.old.history)) (λ c. made ≡ counted (c.action ∷ []) c.made) }
    ensures { IsStep env.old env.new 0 reading result.0 result.1 }
{
    match action {
        Action::Post {
            task,
            runner,
            delay,
        } => {
            let ok = env.post(0, task, runner, delay);
            (
                Hand::Free,
                Ok(Kind::Post {
                    task,
                    runner,
                    delay,
                    ok,
                }),
            )
        }
        Action::Main { task, queue, delay } => {
            let ok = env.main_post(0, task, queue, delay);
            (
                Hand::Free,
                Ok(Kind::Main {
                    task,
                    queue,
                    delay,
                    ok,
                }),
            )
        }
        Action::Tick { count: _ } => {
            let now = env.tick(0, reading);
            (Hand::Free, Ok(Kind::Tick { now }))
        }
        Action::Policy { policy } => {
            env.policy(0, policy);
            (Hand::Free, Ok(Kind::Policy { policy }))
        }
        Action::Reprio { runner, priority } => {
            env.reprio(0, runner, priority);
            (Hand::Free, Ok(Kind::Reprio { runner, priority }))
        }
        Action::Fence { queue, at } => {
            env.fence(0, queue, at);
            (Hand::Free, Ok(Kind::Fence { queue, at }))
        }
        Action::Unfence { queue } => {
            env.unfence(0, queue);
            (Hand::Free, Ok(Kind::Unfence { queue }))
        }
        Action::Vote { queue, voter, on } => {
            env.vote(0, queue, voter, on);
            (Hand::Free, Ok(Kind::Vote { queue, voter, on }))
        }
        Action::Rank { queue, class } => {
            env.rank(0, queue, class);
            (Hand::Free, Ok(Kind::Rank { queue, class }))
        }
        Action::Close { queue } => {
            env.close_queue(0, queue);
            (Hand::Free, Ok(Kind::Close { queue }))
        }
        Action::StartJob { job } => {
            let ok = env.job_post(0, job);
            (Hand::Free, Ok(Kind::JobPost { job, ok }))
        }
        Action::Pump { count: _ } => pump(env),
        Action::Flush => flush(env),
        Action::Join { job } => join(env, job),
        Action::Cancel { job } => cancel(env, job, made),
        Action::Shutdown => shutdown(env, made),
    }
}

/// A pump takes the chosen front, or ends where none is open.
fn pump(env: &mut Env<ScriptBody>) -> (Hand, Result<Kind, Wait>)
    requires { (count : ℕ) × IsAtAction env.old.script env.old.history 0 (actions.Pump count) }
    ensures { (reading : ℕ) → IsStep env.old env.new 0 reading result.0 result.1 }
{
    match env.main_take(0) {
        None => (Hand::Free, Ok(Kind::MainNone)),
        Some(work) => {
            let kind = Kind::MainTake {
                task: work.task(),
                queue: work.home(),
                found: work.found(),
            };
            (Hand::Task(advance(work)), Ok(kind))
        }
    }
}

/// A flush ends where the pool is idle.
fn flush(env: &mut Env<ScriptBody>) -> (Hand, Result<Kind, Wait>)
    requires { IsAtAction env.old.script env.old.history 0 actions.Flush }
    ensures { (reading : ℕ) → IsStep env.old env.new 0 reading result.0 result.1 }
{
    match env.try_idle(0) {
        Ok(()) => (Hand::Free, Ok(Kind::Idle)),
        Err(not_yet) => {
            let (running, ready) = (not_yet.running, not_yet.ready);
            (Hand::Free, Err(Wait::NotIdle { running, ready }))
        }
    }
}

/// A join ends with the job's reply, where there is one, and else goes into the job, if it may.
fn join(env: &mut Env<ScriptBody>, job: JobId) -> (Hand, Result<Kind, Wait>)
    requires { IsAtAction env.old.script env.old.history 0 (actions.Join job) }
    ensures { (reading : ℕ) → IsStep env.old env.new 0 reading result.0 result.1 }
{
    match env.try_joined(0, job) {
        Ok(reply) => (Hand::Free, Ok(Kind::Joined { job, reply })),
        Err(not_yet) => match env.job_take(0, job) {
            None => {
                let seats = not_yet.running;
                (Hand::Free, Err(Wait::Inside { job, seats }))
            }
            Some(pass) => {
                let kind = Kind::JobTake {
                    job: pass.job(),
                    id: pass.id(),
                    item: pass.item(),
                };
                (Hand::Item(pass), Ok(kind))
            }
        },
    }
}

/// A cancel tells the job first, and ends where nobody is inside.
fn cancel(env: &mut Env<ScriptBody>, job: JobId, made: u32) -> (Hand, Result<Kind, Wait>)
    requires at { IsAtAction env.old.script env.old.history 0 (actions.Cancel job) }
    requires counts { IfSome (current env.old.script (own_entries 0 env.old.history)) (λ c. made ≡ counted (c.action ∷ []) c.made) }
    ensures { (reading : ℕ) → IsStep env.old env.new 0 reading result.0 result.1 }
{
    if made == 0 {
        env.job_cancel(0, job);
        return (Hand::Free, Ok(Kind::JobCancel { job }));
    }
    match env.try_cancelled(0, job) {
        Ok(()) => (Hand::Free, Ok(Kind::Cancelled { job })),
        Err(not_yet) => {
            let seats = not_yet.running;
            (Hand::Free, Err(Wait::Inside { job, seats }))
        }
    }
}

/// A shutdown starts first, and ends where nothing blocks it.
fn shutdown(env: &mut Env<ScriptBody>, made: u32) -> (Hand, Result<Kind, Wait>)
    requires at { IsAtAction env.old.script env.old.history 0 actions.Shutdown }
    requires counts { IfSome (current env.old.script (own_entries 0 env.old.history)) (λ c. made ≡ counted (c.action ∷ []) c.made) }
    ensures { (reading : ℕ) → IsStep env.old env.new 0 reading result.0 result.1 }
{
    if made == 0 {
        env.start_shutdown(0);
        return (Hand::Free, Ok(Kind::Shutdown));
    }
    match env.try_done(0) {
        Ok(()) => (Hand::Free, Ok(Kind::Done)),
        Err(blocked) => {
            let count = blocked.count;
            (Hand::Free, Err(Wait::Blocked { count }))
        }
    }
}
