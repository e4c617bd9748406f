ghost use Rattle.std.specs.Prelude.{◌≡◌, ◌+◌, ◌≤◌, [], ◌∷◌, ◌++◌, length, decimal, codes};
ghost use Rattle.line_text.specs.Words.{with_words};
ghost use Rattle.value_words.specs.Words.{vote_word, kind_word};
ghost use Rattle.script_model.specs.Canonical.{may_block_words, step_words, action_words};
ghost use Rattle.script_text.specs.Written.{with_line, before_step, step_text, runner_text, queue_text, job_head_text, action_text, config_text};

use line_text::{Line, add, add_decimal, add_number, add_word};
use task_base::{Action, Job, MainQueue, Runner, RunnerKind, Script, Step};
use value_words::{behaviour_word, fence_word, policy_word, priority_word, scope_word, vote_word};

/// The lines of the configuration.
#[tactic(auto, using(crate::proofs::Texts::config_joined))]
pub(crate) fn config_lines(script: &Script) -> Line
    ensures { result.items ≡ config_text script.now }
{
    let mut lines = Line::new();
    add_one(&mut lines, b"workers", u64::from(script.workers));
    lines.push(b'\n');
    add_three(
        &mut lines,
        b"groups",
        u64::from(script.foreground),
        u64::from(script.foreground_best),
        u64::from(script.background),
    );
    lines.push(b'\n');
    add_one(&mut lines, b"threshold", script.threshold);
    lines.push(b'\n');
    lines
}

/// The line of a runner.
#[tactic(auto, using(crate::proofs::Texts::line_joined))]
pub(crate) fn runner_line(number: u64, runner: &Runner) -> Line
    ensures { result.items ≡ runner_text number runner.now }
{
    let mut line = Line::new();
    add(&mut line, b"runner");
    add_number(&mut line, number);
    add_kind(&mut line, runner.kind);
    add_word(&mut line, priority_word(runner.traits.priority).as_bytes());
    add_word(
        &mut line,
        behaviour_word(runner.traits.behaviour).as_bytes(),
    );
    add_may_block(&mut line, runner.traits.may_block);
    line.push(b'\n');
    line
}

/// The line of a main queue.
#[tactic(auto, using(crate::proofs::Texts::line_joined))]
pub(crate) fn queue_line(number: u64, queue: &MainQueue) -> Line
    ensures { result.items ≡ queue_text number queue.now }
{
    let mut line = Line::new();
    add_three(
        &mut line,
        b"queue",
        number,
        u64::from(queue.class),
        u64::from(queue.voters),
    );
    line.push(b'\n');
    line
}

/// The line of a task up to its steps.
pub(crate) fn task_head(number: u64) -> Line
    ensures { result.items ≡ codes "task " ++ decimal number }
{
    let mut line = Line::new();
    add(&mut line, b"task");
    add_number(&mut line, number);
    line
}

/// The line of a job up to its steps.
pub(crate) fn job_head(number: u64, job: &Job) -> Line
    ensures { result.items ≡ job_head_text number job.now }
{
    let mut line = Line::new();
    add(&mut line, b"job");
    add_number(&mut line, number);
    add_word(&mut line, priority_word(job.priority).as_bytes());
    add_word(&mut line, behaviour_word(job.behaviour).as_bytes());
    add_number(&mut line, u64::from(job.items));
    add_number(&mut line, u64::from(job.cap));
    line
}

/// A line feed.
pub(crate) fn line_end() -> Line
    ensures { result.items ≡ 10 ∷ [] }
{
    let mut line = Line::new();
    line.push(b'\n');
    line
}

/// A step in the line of a task or a job, by its place there.
#[tactic(auto, using(crate::proofs::Texts::words_joined))]
pub(crate) fn step_piece(place: u64, step: &Step) -> Line
    ensures { result.items ≡ step_text place step.now }
{
    let mut line = Line::new();
    add(&mut line, bytes_before_step(place));
    add_step(&mut line, step);
    line
}

/// The line of an action.
#[tactic(auto, using(crate::proofs::Texts::line_joined))]
pub(crate) fn action_line(place: u64, action: &Action) -> Line
    ensures { result.items ≡ action_text place action.now }
{
    let mut line = Line::new();
    add_action(&mut line, action);
    line.push(b'\n');
    line
}

// What stands before a step.
fn bytes_before_step(place: u64) -> &'static [u8]
    ensures bytes { result.now ≡ before_step place }
    ensures short { length result.now ≤ 10 }
{
    if place == 0 { b" " } else { b" ; " }
}

// Adds the words of a step.
fn add_step(line: &mut Line, step: &Step)
    requires { length line.old.items ≤ 50 }
    ensures words { line.new.items ≡ with_line line.old.items (step_words step.now) }
    ensures short { length line.new.items ≤ 200 }
{
    match *step {
        Step::Add(by) => add_one(line, b"add", by),
        Step::Mul(by) => add_one(line, b"mul", by),
        Step::Set(to) => add_one(line, b"set", to),
        Step::Post {
            task,
            runner,
            delay,
        } => add_three(line, b"post", u64::from(task), u64::from(runner), delay),
        Step::Main { task, queue, delay } => {
            add_three(line, b"main", u64::from(task), u64::from(queue), delay)
        }
        Step::Block(scope) => add_named(line, b"block", scope_word(scope).as_bytes()),
        Step::Unblock => add(line, b"unblock"),
    }
}

// Adds the words of an action.
fn add_action(line: &mut Line, action: &Action)
    requires { length line.old.items ≤ 50 }
    ensures words { line.new.items ≡ with_line line.old.items (action_words action.now) }
    ensures short { length line.new.items ≤ 200 }
{
    match *action {
        Action::Post {
            task,
            runner,
            delay,
        } => add_three(line, b"post", u64::from(task), u64::from(runner), delay),
        Action::Main { task, queue, delay } => {
            add_three(line, b"main", u64::from(task), u64::from(queue), delay)
        }
        Action::Tick { count } => add_one(line, b"tick", u64::from(count)),
        Action::Policy { policy } => add_named(line, b"policy", policy_word(policy).as_bytes()),
        Action::Reprio { runner, priority } => {
            add_flag(line, b"reprio", runner, priority_word(priority).as_bytes())
        }
        Action::Fence { queue, at } => add_flag(line, b"fence", queue, fence_word(at).as_bytes()),
        Action::Unfence { queue } => add_one(line, b"unfence", u64::from(queue)),
        Action::Vote { queue, voter, on } => add_vote(line, queue, voter, on),
        Action::Rank { queue, class } => add_two(line, b"rank", queue, class),
        Action::Close { queue } => add_one(line, b"close", u64::from(queue)),
        Action::Pump { count } => add_one(line, b"pump", u64::from(count)),
        Action::Flush => add(line, b"flush"),
        Action::StartJob { job } => add_one(line, b"startjob", u64::from(job)),
        Action::Join { job } => add_one(line, b"join", u64::from(job)),
        Action::Cancel { job } => add_one(line, b"cancel", u64::from(job)),
        Action::Shutdown => add(line, b"shutdown"),
    }
}

// A name and a number.
fn add_one(line: &mut Line, name: &[u8], first: u64)
    requires line { length line.old.items ≤ 150 }
    requires name { length name.now ≤ 9 }
    ensures words { line.new.items ≡ with_line line.old.items (name.now ∷ decimal first ∷ []) }
    ensures short { length line.new.items ≤ length line.old.items + 30 }
{
    add(line, name);
    add_number(line, first);
}

// A name and two numbers.
fn add_two(line: &mut Line, name: &[u8], first: u32, second: u8)
    requires line { length line.old.items ≤ 150 }
    requires name { length name.now ≤ 9 }
    ensures words { line.new.items ≡ with_line line.old.items (name.now ∷ decimal first ∷ decimal second ∷ []) }
    ensures short { length line.new.items ≤ length line.old.items + 51 }
{
    add(line, name);
    add_number(line, u64::from(first));
    add_number(line, u64::from(second));
}

// A name and three numbers.
fn add_three(line: &mut Line, name: &[u8], first: u64, second: u64, third: u64)
    requires line { length line.old.items ≤ 150 }
    requires name { length name.now ≤ 9 }
    ensures words { line.new.items ≡ with_line line.old.items (name.now ∷ decimal first ∷ decimal second ∷ decimal third ∷ []) }
    ensures short { length line.new.items ≤ length line.old.items + 72 }
{
    add(line, name);
    add_number(line, first);
    add_number(line, second);
    add_number(line, third);
}

// A name and a word.
fn add_named(line: &mut Line, name: &[u8], word: &[u8])
    requires line { length line.old.items ≤ 150 }
    requires name { length name.now ≤ 9 }
    requires word { length word.now ≤ 20 }
    ensures words { line.new.items ≡ with_line line.old.items (name.now ∷ word.now ∷ []) }
    ensures short { length line.new.items ≤ length line.old.items + 30 }
{
    add(line, name);
    add_word(line, word);
}

// A name, a number and a word.
fn add_flag(line: &mut Line, name: &[u8], first: u32, word: &[u8])
    requires line { length line.old.items ≤ 150 }
    requires name { length name.now ≤ 9 }
    requires word { length word.now ≤ 20 }
    ensures words { line.new.items ≡ with_line line.old.items (name.now ∷ decimal first ∷ word.now ∷ []) }
    ensures short { length line.new.items ≤ length line.old.items + 51 }
{
    add(line, name);
    add_number(line, u64::from(first));
    add_word(line, word);
}

// The words of a vote.
fn add_vote(line: &mut Line, queue: u32, voter: u8, on: bool)
    requires { length line.old.items ≤ 150 }
    ensures words { line.new.items ≡ with_line line.old.items (codes "vote" ∷ decimal queue ∷ decimal voter ∷ vote_word on ∷ []) }
    ensures short { length line.new.items ≤ length line.old.items + 72 }
{
    add_two(line, b"vote", queue, voter);
    add_word(line, vote_word(on).as_bytes());
}

// Adds a space and the word of a runner's kind.
fn add_kind(line: &mut Line, kind: RunnerKind)
    requires { length line.old.items ≤ 150 }
    ensures word { line.new.items ≡ line.old.items ++ 32 ∷ kind_word kind }
    ensures short { length line.new.items ≤ length line.old.items + 30 }
{
    match kind {
        RunnerKind::Parallel => add_word(line, b"parallel"),
        RunnerKind::Sequenced => add_word(line, b"sequenced"),
        RunnerKind::Single(seat) => {
            add_word(line, b"single:");
            add_decimal(line, u64::from(seat));
        }
    }
}

// Adds `mayblock` behind a space, where it is said.
fn add_may_block(line: &mut Line, may_block: bool)
    requires { length line.old.items ≤ 200 }
    ensures words { line.new.items ≡ with_words line.old.items (may_block_words may_block) }
    ensures short { length line.new.items ≤ length line.old.items + 10 }
{
    if may_block {
        add_word(line, b"mayblock");
    }
}
