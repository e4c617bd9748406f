ghost use Rattle.std.specs.Prelude.{◌≡◌, ℕ, ◌&&◌, nat_le, true, List};
ghost use Rattle.std.specs.List.{list_any};
ghost use Rattle.task_base.specs.Plan.{Plan};
ghost use Rattle.task_base.specs.declared.entry.Entry.{Entry};
ghost use Rattle.task_model.specs.Seats.{steps_of};
ghost use Rattle.hist_model.specs.Allowed.{by_own_step, enters};
ghost use Rattle.hist_model.specs.Open.{is_post_within, posts_task};
ghost use Rattle.hist_model.specs.Laws.Open.{is_post};
ghost use Rattle.live_core.specs.Books.{StandFor};
ghost use Rattle.live_core.specs.Calls.{fits, is_posting_it};

use crate::books::Books;
use crate::call::Call;
use task_base::{Kind, MOST_MICROSECONDS, QueueId, RunnerId, Script, SeatNo, Step, TaskId};

// Which posts may come.
impl Books {
    /// Whether a seat may post a task to a runner: the one that is named, or else a new one.
    pub(super) fn may_post(
        &self,
        seat: SeatNo,
        named: Option<TaskId>,
        runner: RunnerId,
        delay: u64,
    ) -> bool
        requires { (plan : Plan) × (past : List Entry) × StandFor plan past self.now }
        ensures { (plan : Plan) (past : List Entry) → StandFor plan past self.now → result ≡ fits plan past (Call.Post seat named runner delay) }
    {
        match named {
            None => self.is_posting(seat) && self.has_runner(runner) && delay <= MOST_MICROSECONDS,
            Some(task) => {
                let ok = true;
                self.is_posting_it(
                    seat,
                    task,
                    Kind::Post {
                        task,
                        runner,
                        delay,
                        ok,
                    },
                )
            }
        }
    }

    /// The same to a main queue.
    pub(super) fn may_main_post(
        &self,
        seat: SeatNo,
        named: Option<TaskId>,
        queue: QueueId,
        delay: u64,
    ) -> bool
        requires { (plan : Plan) × (past : List Entry) × StandFor plan past self.now }
        ensures { (plan : Plan) (past : List Entry) → StandFor plan past self.now → result ≡ fits plan past (Call.Main seat named queue delay) }
    {
        match named {
            None => self.is_posting(seat) && self.has_queue(queue) && delay <= MOST_MICROSECONDS,
            Some(task) => {
                let ok = true;
                self.is_posting_it(
                    seat,
                    task,
                    Kind::Main {
                        task,
                        queue,
                        delay,
                        ok,
                    },
                )
            }
        }
    }

    // Whether the seat may post this task by this entry: one that is declared and was not posted, and where steps of the plan
    // post it, one of the task that the seat runs.
    fn is_posting_it(&self, seat: SeatNo, task: TaskId, kind: Kind) -> bool
        requires stands { (plan : Plan) × (past : List Entry) × StandFor plan past self.now }
        requires posts { posts_task task kind ≡ true }
        ensures { (plan : Plan) (past : List Entry) → StandFor plan past self.now → result ≡ is_posting_it plan past seat task kind }
    {
        if !self.is_within(kind) || self.posted[task as usize] {
            return false;
        }
        if self.kept[task as usize] {
            self.has_own_step(seat, kind)
        } else {
            self.is_posting(seat)
        }
    }

    // Whether a post names what is declared, and its delay is in its range.
    fn is_within(&self, kind: Kind) -> bool
        ensures { (plan : Plan) (past : List Entry) → StandFor plan past self.now → result ≡ is_post_within plan kind }
    {
        match kind {
            Kind::Post {
                task,
                runner,
                delay,
                ..
            } => self.has_task(task) && self.has_runner(runner) && delay <= MOST_MICROSECONDS,
            Kind::Main {
                task,
                queue,
                delay,
                ..
            } => self.has_task(task) && self.has_queue(queue) && delay <= MOST_MICROSECONDS,
            _ => false,
        }
    }

    // Whether the seat runs a task that has a step for this post.
    fn has_own_step(&self, seat: SeatNo, kind: Kind) -> bool
        requires { is_post kind ≡ true }
        ensures { (plan : Plan) (past : List Entry) → StandFor plan past self.now
            → result ≡ (nat_le seat plan.workers && by_own_step plan past seat kind) }
    {
        match self.runs(seat) {
            Some(work) => has_step(self.script(), work.task, kind),
            None => false,
        }
    }
}

// Whether a task has a step for this post.
fn has_step(script: &Script, task: TaskId, kind: Kind) -> bool
    requires { is_post kind ≡ true }
    ensures { result ≡ list_any (λ step. enters task step kind) (steps_of script.now task) }
{
    match script.tasks.at(task as usize) {
        None => false,
        Some(task) => any_enters(task.steps.as_slice(), kind),
    }
}

fn any_enters(steps: &[Step], kind: Kind) -> bool
    requires { is_post kind ≡ true }
    ensures { (t : ℕ) → result ≡ list_any (λ step. enters t step kind) steps.now }
{
    for step in steps {
        if enters(step, kind) {
            return true;
        }
    }
    false
}

// Whether a step is for this post.
fn enters(step: &Step, kind: Kind) -> bool
    requires { is_post kind ≡ true }
    ensures { (t : ℕ) → result ≡ enters t step.now kind }
{
    match (*step, kind) {
        (
            Step::Post {
                task,
                runner,
                delay,
            },
            Kind::Post {
                task: posted,
                runner: home,
                delay: by,
                ..
            },
        ) => posted == task && home == runner && by == delay,
        (
            Step::Main { task, queue, delay },
            Kind::Main {
                task: posted,
                queue: home,
                delay: by,
                ..
            },
        ) => posted == task && home == queue && by == delay,
        _ => false,
    }
}
