//! Blocking scopes of a task.
ghost use Rattle.std.specs.Prelude.{◌≡◌, ◌≤◌, false, IfSome};
ghost use Rattle.std.specs.List.{list_any};
ghost use Rattle.script_lint.specs.Scopes.{block_in, block_fault, inside_behind, is_scope, opened_fault};

use crate::steps::{moved, must_not_block, words_in};
use lint_text::{Complaint, Objection, at};
use task_base::{Script, Step};

/// What is wrong with the first of a task's steps, which stand from this place on, that opens or closes a scope wrongly, or posts a
/// task where it must not block.
#[tactic(auto, unfolding(crate::specs::Scopes::block_in))]
pub(crate) fn block_in(script: &Script, steps: &[Step], from: usize) -> Option<Objection>
    requires { from ≤ 8 }
    ensures { result ≡ block_in script.now false steps.now from }
{
    let mut inside = false;
    let mut place = from;
    for (index, step) in steps.iter().enumerate() {
        let here = moved(
            place,
            block_fault(script, inside, step, &steps[index + 1..]),
        );
        if here.is_some() {
            return here;
        }
        inside = inside_behind(inside, step);
        place += words_in(step);
    }
    None
}

/// What is wrong with a step, where a scope is open or none, and those steps are behind it.
fn block_fault(script: &Script, inside: bool, step: &Step, behind: &[Step]) -> Option<Objection>
    ensures objection { result ≡ block_fault script.now inside step.now behind.now }
    ensures near { IfSome result (λ objection. objection.place ≤ 2) }
{
    match *step {
        Step::Block(_) => opened_fault(inside, behind),
        Step::Unblock if inside => None,
        Step::Unblock => Some(at(0, Complaint::ClosesNone)),
        _ => must_not_block(script, step),
    }
}

/// What is wrong with a step that opens a scope.
fn opened_fault(inside: bool, behind: &[Step]) -> Option<Objection>
    ensures objection { result ≡ opened_fault inside behind.now }
    ensures near { IfSome result (λ objection. objection.place ≤ 2) }
{
    if inside {
        return Some(at(0, Complaint::OpensSecond));
    }
    if has_scope(behind) {
        return None;
    }
    Some(at(0, Complaint::StaysOpen))
}

/// Whether one of the steps opens or closes a scope.
fn has_scope(steps: &[Step]) -> bool
    ensures { result ≡ list_any is_scope steps.now }
{
    steps
        .iter()
        .any(|step| matches!(*step, Step::Block(_) | Step::Unblock))
}

/// Whether a scope is open behind a step.
fn inside_behind(inside: bool, step: &Step) -> bool
    ensures { result ≡ inside_behind inside step.now }
{
    match *step {
        Step::Block(_) => true,
        Step::Unblock => false,
        _ => inside,
    }
}
