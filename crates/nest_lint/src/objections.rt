//! What is wrong with a line whose words are right, by what stands before it.
ghost use Rattle.std.specs.Prelude.{◌≡◌, ◌≤◌, ◌^◌, length};
ghost use Rattle.script_model.specs.Words.{words_of};
ghost use Rattle.nest_lint.specs.declared.posts.Part.TheVariants.{Other};
ghost use Rattle.nest_lint.specs.Objections.{declared, is_before, limit_passed, nest_objection, not_among, order_objection, posted_again, posted_from, posted_in, posted_word, too_many, undeclared_from, undeclared_in, undeclared_word};

use crate::earlier::{Sought, first_line};
use crate::posts::{Part, part_behind, posting_place};
use line_places::{Thing, command_of, id_of};
use line_words::Words;
use lint_text::{Complaint, Limited, Objection, at, none_of};
use nested_loop::{MOST_NEST_ACTIONS, MOST_NEST_STEPS, MOST_NEST_TASKS, Nest};
use task_base::{MOST_QUEUES, TaskId};

/// What is wrong with a line behind the nest of the lines before it, whose bytes these are, by the reason: one of 2 to 6.
pub(crate) fn nest_objection(
    nest: &Nest,
    front: &[u8],
    line: &[u8],
    reason: u8,
) -> Option<Objection>
    requires { length front.now ≤ 4294967294 }
    ensures { result ≡ nest_objection nest.now front.now line.now reason }
{
    match reason {
        2 => Some(order_objection(nest, command_of(line))),
        3 => undeclared_in(nest, line),
        4 => posted_in(front, line),
        5 => {
            let line = first_line(front, Sought::Acts);
            Some(at(1, Complaint::Late { action: true, line }))
        }
        6 => Some(too_many(nest, command_of(line))),
        _ => None,
    }
}

/// That the number of a declaration is not the next one.
fn order_objection(nest: &Nest, command: &[u8]) -> Objection
    ensures { result ≡ order_objection nest.now command.now }
{
    let (of, next) = declared(nest, command);
    at(
        2,
        Complaint::OutOfOrder {
            of,
            next: next as u64,
        },
    )
}

/// What a declaration declares, and how many of them there are.
fn declared(nest: &Nest, command: &[u8]) -> (Thing, usize)
    ensures { result ≡ declared nest.now command.now }
{
    if command == b"queue".as_slice() {
        (Thing::Queue, nest.classes.len())
    } else {
        (Thing::Task, nest.tasks.len())
    }
}

/// The first task or queue of a line that is not declared.
fn undeclared_in(nest: &Nest, line: &[u8]) -> Option<Objection>
    ensures { result ≡ undeclared_in nest.now line.now }
{
    undeclared_from(nest, Words::of(line))
}

/// The first task or queue of words that is not declared.
#[tactic(auto, unfolding(crate::specs::Objections::undeclared_from))]
fn undeclared_from(nest: &Nest, mut words: Words<'_>) -> Option<Objection>
    requires { length words ≤ 2 ^ 63 }
    ensures { result ≡ undeclared_from nest.now Other words.entry 1 }
{
    let mut part = Part::Other;
    let mut place = 1;
    while let Some(word) = words.next() {
        if let Some(complaint) = undeclared_word(nest, part, word) {
            return Some(at(place, complaint));
        }
        part = part_behind(part, word);
        place += 1;
    }
    None
}

/// That the task or queue that a word is, is not declared.
fn undeclared_word(nest: &Nest, part: Part, word: &[u8]) -> Option<Complaint>
    ensures { result ≡ undeclared_word nest.now part word.now }
{
    match part {
        Part::Task => not_among(Thing::Task, nest.tasks.len(), id_of(word)),
        Part::Queue => not_among(Thing::Queue, nest.classes.len(), id_of(word)),
        Part::Other => None,
    }
}

/// That of so many things this is none.
fn not_among(of: Thing, count: usize, id: Option<u32>) -> Option<Complaint>
    ensures { result ≡ not_among of count id }
{
    match id {
        Some(id) if id as usize >= count => Some(none_of(of, count)),
        _ => None,
    }
}

/// The first task that a line posts, and that the lines before it post, or the line itself before.
fn posted_in(front: &[u8], line: &[u8]) -> Option<Objection>
    requires { length front.now ≤ 4294967294 }
    ensures { result ≡ posted_in front.now line.now }
{
    posted_from(front, line, Words::of(line))
}

/// The same, of the words of the line. It takes time by its posts, each times the bytes before it and its own.
#[tactic(auto, unfolding(crate::specs::Objections::posted_from))]
fn posted_from(front: &[u8], line: &[u8], mut words: Words<'_>) -> Option<Objection>
    requires short { length front.now ≤ 4294967294 }
    requires few { length words ≤ 2 ^ 63 }
    ensures { result ≡ posted_from front.now line.now Other words.entry 1 }
{
    let mut part = Part::Other;
    let mut place = 1;
    while let Some(word) = words.next() {
        if let Some(complaint) = posted_word(front, line, part, word, place) {
            return Some(at(place, complaint));
        }
        part = part_behind(part, word);
        place += 1;
    }
    None
}

/// That a word is a task that is posted before it.
fn posted_word(
    front: &[u8],
    line: &[u8],
    part: Part,
    word: &[u8],
    place: usize,
) -> Option<Complaint>
    requires { length front.now ≤ 4294967294 }
    ensures { result ≡ posted_word front.now line.now part word.now place }
{
    match part {
        Part::Task => posted_again(front, line, id_of(word)?, place),
        _ => None,
    }
}

/// That the task is posted by the lines before a line, or by the line itself before this place.
fn posted_again(front: &[u8], line: &[u8], task: TaskId, place: usize) -> Option<Complaint>
    requires { length front.now ≤ 4294967294 }
    ensures { result ≡ posted_again front.now line.now task place }
{
    let earlier = first_line(front, Sought::Posts { task });
    if earlier.is_some() || is_before(posting_place(line, task), place) {
        Some(Complaint::PostedTwice {
            task,
            line: earlier,
        })
    } else {
        None
    }
}

/// Whether there is a place, and it stands before this one.
fn is_before(first: Option<usize>, place: usize) -> bool
    ensures { result ≡ is_before first place }
{
    matches!(first, Some(first) if first < place)
}

/// That with the line a limit is passed.
fn too_many(nest: &Nest, command: &[u8]) -> Objection
    ensures { result ≡ too_many nest.now command.now }
{
    let (of, most) = limit_passed(nest, command);
    at(
        1,
        Complaint::TooMany {
            of,
            most: most as u64,
        },
    )
}

/// What there is too much of with a line of this command, and how many there may be.
fn limit_passed(nest: &Nest, command: &[u8]) -> (Limited, usize)
    ensures { result ≡ limit_passed nest.now command.now }
{
    if command == b"queue".as_slice() {
        (Limited::Queues, MOST_QUEUES)
    } else if command != b"task".as_slice() {
        (Limited::Actions, MOST_NEST_ACTIONS)
    } else if nest.tasks.len() >= MOST_NEST_TASKS {
        (Limited::Tasks, MOST_NEST_TASKS)
    } else {
        (Limited::Steps, MOST_NEST_STEPS)
    }
}
