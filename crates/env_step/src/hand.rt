ghost use Rattle.std.specs.Prelude.{◌≡◌, ◌≢◌, ℕ, [], ◌++◌, filter};
ghost use Rattle.task_base.specs.Steps.{after, is_act};
ghost use Rattle.task_body.specs.declared.act.Act.TheVariants as acts;
ghost use Rattle.env_step.specs.Hands.{told_by};

use task_body::{Act, Assignment, JobPass, ScriptBody};

/// A task that a seat is at: its steps up to the next act step are done, which is told.
pub struct AtTask {
    pub work: Assignment<ScriptBody>,
    /// The next act step, or `Finished` where there is none.
    pub next: Act,
}

/// What a seat has in hand.
#[derive(Drop)]
pub enum Hand {
    /// It runs nothing, and is inside no job.
    Free,
    /// It runs a task.
    Task(AtTask),
    /// It holds an item of a job.
    Item(JobPass),
}

impl Drop for AtTask {
    /// What is left of the task is done, so that its cell comes free.
    fn drop(self) {
        let AtTask { work, next: _ } = self;
        let _ = do_rest(work);
    }
}

impl AtTask {
    /// The task, and its next act step.
    pub fn into_parts(self) -> (Assignment<ScriptBody>, Act)
        ensures work { result.0 ≡ self.work }
        ensures next { result.1 ≡ self.next }
    {
        let AtTask { work, next } = self;
        (work, next)
    }
}

/// Does all steps that are left of a task, and gives its parts up. Answers what the task leaves.
pub fn do_rest(mut work: Assignment<ScriptBody>) -> u64
    ensures { result ≡ after work.whole work.found }
{
    loop {
        match work.step() {
            Act::Finished => {
                let left = work.value();
                let _ = work.split_up();
                return left;
            }
            _ => {}
        }
    }
}

/// Goes to the next act step of a task.
pub fn advance(mut work: Assignment<ScriptBody>) -> AtTask
    ensures same { result.work ≡ record work { value = result.work.value; rest = result.work.rest } }
    ensures acts { filter is_act work.rest ≡ told_by result.next ++ filter is_act result.work.rest }
    ensures stops { (k : ℕ) → result.next ≢ acts.Did k }
    ensures ends { result.next ≡ acts.Finished → result.work.rest ≡ [] }
{
    loop {
        match work.step() {
            Act::Did(_) => {}
            next => return AtTask { work, next },
        }
    }
}
