//! The tasks that a line posts. Where the words of a line are right, `post` stands in it as a command or a step alone, and a task
//! and a queue behind it.
ghost use Rattle.std.specs.Prelude.{◌≡◌, ◌≤◌, ◌^◌, length};
ghost use Rattle.script_model.specs.Words.{words_of};
ghost use Rattle.nest_lint.specs.declared.posts.Part.TheVariants.{Other};
ghost use Rattle.nest_lint.specs.Posts.{is_task, part_behind, place_of, posting_place};

use line_places::id_of;
use line_words::Words;
use task_base::TaskId;

/// What a word of a line is in what it posts.
#[derive(Clone, Copy)]
pub(crate) enum Part {
    /// A task, behind `post`.
    Task,
    /// A queue, behind that task.
    Queue,
    /// None of the two.
    Other,
}

/// What the next word is behind one that is this.
pub(crate) fn part_behind(part: Part, word: &[u8]) -> Part
    ensures { result ≡ part_behind part word.now }
{
    if word == b"post".as_slice() {
        return Part::Task;
    }
    match part {
        Part::Task => Part::Queue,
        _ => Part::Other,
    }
}

/// Whether a word is this task, and posted.
fn is_task(task: TaskId, part: Part, word: &[u8]) -> bool
    ensures { result ≡ is_task task part word.now }
{
    matches!(part, Part::Task) && matches!(id_of(word), Some(id) if id == task)
}

/// The first place of a line at which it posts the task.
pub(crate) fn posting_place(line: &[u8], task: TaskId) -> Option<usize>
    ensures { result ≡ posting_place line.now task }
{
    place_of(Words::of(line), task)
}

/// The first place of words at which they post the task.
#[tactic(auto, unfolding(crate::specs::Posts::place_of))]
fn place_of(mut words: Words<'_>, task: TaskId) -> Option<usize>
    requires { length words ≤ 2 ^ 63 }
    ensures { result ≡ place_of task Other words.entry 1 }
{
    let mut part = Part::Other;
    let mut place = 1;
    while let Some(word) = words.next() {
        if is_task(task, part, word) {
            return Some(place);
        }
        part = part_behind(part, word);
        place += 1;
    }
    None
}
