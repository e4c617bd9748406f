ghost use Rattle.std.specs.Prelude.{◌≡◌, ◌≤◌, ◌∷◌, [], length, IfOk};
ghost use Rattle.task_base.specs.declared.step.Step.TheVariants.{Add};
ghost use Rattle.script_model.specs.Laws.Sound.{IsSound};
ghost use Rattle.task_script.specs.Generated.{generated, number_behind, numbers_behind, amount_of, posting_of, generated_runner, generated_runners, generated_tasks, generated_job, generated_actions};

use std::alloc::{AllocError, Global};
use task_base::{
    Action, Behaviour, Job, MainQueue, Priority, Rows, Runner, RunnerId, RunnerKind, Script, Step,
    Task, TaskId, Traits,
};

/// A script of `size` tasks, 1 to 8,192, and a job of eight items for each, made from a number by a linear congruential
/// generator: the same number and size always give the same script. The error is want of memory.
pub fn generate(alloc: Global, number: u64, size: u32) -> Result<Script, AllocError>
    requires some { 1 ≤ size }
    requires few { size ≤ 8192 }
    ensures script { IfOk result (λ script. script ≡ generated number size) }
    ensures sound { IfOk result (λ script. IsSound script) }
{
    let numbers = numbers_behind(alloc, number, size)?;
    Ok(Script {
        workers: 4,
        foreground: 4,
        foreground_best: 2,
        background: 2,
        threshold: 1_000_000,
        runners: runners(alloc)?,
        queues: queues(alloc)?,
        tasks: tasks_of(alloc, numbers.as_slice())?,
        jobs: jobs(alloc, size)?,
        actions: actions_of(alloc, numbers.as_slice())?,
    })
}

/// So many numbers, each behind the one before it, the first behind this one.
fn numbers_behind(alloc: Global, number: u64, count: u32) -> Result<Vec<u64>, AllocError>
    ensures { IfOk result (λ numbers. numbers.items ≡ numbers_behind number count) }
{
    let mut numbers = Vec::with_capacity(alloc, count as usize)?;
    let mut last = number;
    for _ in 0..count {
        last = number_behind(last);
        numbers.push(last)?;
    }
    Ok(numbers)
}

/// The number behind another one, by the factor and the summand of Knuth's MMIX.
fn number_behind(x: u64) -> u64
    ensures { result ≡ number_behind x }
{
    x.wrapping_mul(6_364_136_223_846_793_005)
        .wrapping_add(1_442_695_040_888_963_407)
}

fn runners(alloc: Global) -> Result<Rows<Runner>, AllocError>
    ensures { IfOk result (λ runners. runners.items ≡ generated_runners) }
{
    let runners = [
        runner(
            RunnerKind::Parallel,
            Priority::UserVisible,
            Behaviour::SkipOnShutdown,
        ),
        runner(
            RunnerKind::Sequenced,
            Priority::UserBlocking,
            Behaviour::BlockShutdown,
        ),
        runner(
            RunnerKind::Sequenced,
            Priority::BestEffort,
            Behaviour::ContinueOnShutdown,
        ),
        runner(
            RunnerKind::Sequenced,
            Priority::UserVisible,
            Behaviour::BlockShutdown,
        ),
    ];
    Ok(Rows::from_vec(Vec::from_slice(alloc, &runners)?))
}

/// A runner whose tasks may not block.
fn runner(kind: RunnerKind, priority: Priority, behaviour: Behaviour) -> Runner
    ensures { result ≡ generated_runner kind priority behaviour }
{
    Runner {
        kind,
        traits: Traits {
            priority,
            behaviour,
            may_block: false,
        },
    }
}

fn queues(alloc: Global) -> Result<Rows<MainQueue>, AllocError>
    ensures { IfOk result (λ queues. queues.items ≡ record { class = 3; voters = 1 } ∷ []) }
{
    let queues = [MainQueue {
        class: 3,
        voters: 1,
    }];
    Ok(Rows::from_vec(Vec::from_slice(alloc, &queues)?))
}

/// A task for each number.
fn tasks_of(alloc: Global, numbers: &[u64]) -> Result<Rows<Task>, AllocError>
    ensures { IfOk result (λ tasks. tasks.items ≡ generated_tasks numbers.now) }
{
    let mut tasks = Vec::with_capacity(alloc, numbers.len())?;
    for x in numbers {
        tasks.push(task_of(alloc, *x)?)?;
    }
    Ok(Rows::from_vec(tasks))
}

fn task_of(alloc: Global, x: u64) -> Result<Task, AllocError>
    ensures { IfOk result (λ task. task ≡ Add (amount_of x) ∷ []) }
{
    let steps = [Step::Add((x >> 40) % 1000)];
    Ok(Task {
        steps: Rows::from_vec(Vec::from_slice(alloc, &steps)?),
    })
}

fn jobs(alloc: Global, size: u32) -> Result<Rows<Job>, AllocError>
    requires { size ≤ 8192 }
    ensures { IfOk result (λ jobs. jobs.items ≡ generated_job size ∷ []) }
{
    let mut jobs = Vec::new(alloc);
    jobs.push(job(alloc, size)?)?;
    Ok(Rows::from_vec(jobs))
}

fn job(alloc: Global, size: u32) -> Result<Job, AllocError>
    requires { size ≤ 8192 }
    ensures { IfOk result (λ job. job ≡ generated_job size) }
{
    let steps = [Step::Mul(3), Step::Add(1)];
    Ok(Job {
        priority: Priority::UserVisible,
        behaviour: Behaviour::BlockShutdown,
        items: 8 * size,
        cap: 4,
        steps: Rows::from_vec(Vec::from_slice(alloc, &steps)?),
    })
}

#[tactic(auto, using(crate::proofs::Generated::postings_more))]
/// The actions: the job is started before the tasks are posted, and joined when the main ones among them have run.
fn actions_of(alloc: Global, numbers: &[u64]) -> Result<Rows<Action>, AllocError>
    requires { length numbers.now ≤ 8192 }
    ensures { IfOk result (λ actions. actions.items ≡ generated_actions (length numbers.now) numbers.now) }
{
    let mut actions = Vec::with_capacity(alloc, numbers.len() + 4)?;
    actions.push(Action::StartJob { job: 0 })?;
    for (task, x) in numbers.iter().enumerate() {
        actions.push(posting_of(task as TaskId, *x))?;
    }
    let count = numbers.len() as u32;
    let last = [
        Action::Pump { count },
        Action::Join { job: 0 },
        Action::Flush,
    ];
    actions.extend_from_slice(&last)?;
    Ok(Rows::from_vec(actions))
}

/// The post of the task that was made of this number.
fn posting_of(task: TaskId, x: u64) -> Action
    ensures { result ≡ posting_of task x }
{
    match (x >> 33) % 5 {
        4 => Action::Main {
            task,
            queue: 0,
            delay: 0,
        },
        runner => Action::Post {
            task,
            runner: runner as RunnerId,
            delay: 0,
        },
    }
}
