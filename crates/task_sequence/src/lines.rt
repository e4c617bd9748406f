ghost use Rattle.std.specs.Prelude.{◌≡◌, ◌+◌, ◌^◌, ◌<◌, ◌≤◌, ◌++◌, ◌∷◌, [], drop, take, length, map, filter, slice_index_or, slice_set, IsSome, IfNone, IfOk, OnSome, replicate};
ghost use Rattle.slab.specs.Slab.{slab_len, HasRoomFor};
ghost use Rattle.task_sequence.specs.Links.{tasks_of, waiting_of, IsLinked, KeepsOthers};
ghost use Rattle.task_sequence.specs.Lines.{IsWhole, sequences_of, fresh_line};
ghost use Rattle.task_sequence.specs.Sequences.{fresh, given_of, behind_first, may_stay, purged};

use crate::links::{Ends, Node, append, take_first};
use slab::Slab;
use std::alloc::{AllocError, Global};
use task_base::{Cell, Phase, TaskId};
use task_traits::forbids;

/// A sequence: its list of tasks, and its cell while that is at home.
#[derive(Drop)]
pub struct Line {
    pub ends: Ends,
    pub cell: Option<Cell>,
}

/// Puts a task at the end of a sequence.
pub fn append_at(nodes: &mut Slab<Node>, lines: &mut [Line], seq: usize, node: Node)
    requires room { HasRoomFor nodes.old 1 }
    requires countable { slab_len nodes.old < 2 ^ 32 }
    requires within { seq < length lines.old }
    requires whole { IsWhole nodes.old.slots lines.old (slab_len nodes.old) }
    requires last { node.next ≡ None }
    ensures whole { IsWhole nodes.new.slots lines.new (slab_len nodes.new) }
    ensures sequences { let before = slice_index_or (sequences_of nodes.old.slots lines.old) seq fresh in
        sequences_of nodes.new.slots lines.new
        ≡ slice_set (sequences_of nodes.old.slots lines.old) seq (record before { tasks = before.tasks ++ waiting_of node ∷ [] }) }
    ensures held { slab_len nodes.new ≡ slab_len nodes.old + 1 }
    ensures capacity { nodes.new.capacity ≡ nodes.old.capacity }
{
    let line = &mut lines[seq];
    append(nodes, &mut line.ends, node);
}

/// Takes the first task of a sequence, with the cell, unless there is none.
pub fn take_at(nodes: &mut Slab<Node>, lines: &mut [Line], seq: usize) -> Option<(TaskId, Cell)>
    requires within { seq < length lines.old }
    requires whole { IsWhole nodes.old.slots lines.old (slab_len nodes.old) }
    requires home { IsSome (slice_index_or (sequences_of nodes.old.slots lines.old) seq fresh).cell }
    ensures whole { IsWhole nodes.new.slots lines.new (slab_len nodes.new) }
    ensures given { let before = slice_index_or (sequences_of nodes.old.slots lines.old) seq fresh in
        result ≡ given_of before.tasks before.cell }
    ensures sequences { let before = slice_index_or (sequences_of nodes.old.slots lines.old) seq fresh in
        OnSome result (sequences_of nodes.new.slots lines.new
        ≡ slice_set (sequences_of nodes.old.slots lines.old) seq (record { tasks = behind_first before.tasks; cell = None })) }
    ensures unchanged { IfNone result (sequences_of nodes.new.slots lines.new ≡ sequences_of nodes.old.slots lines.old) }
    ensures held { OnSome result (slab_len nodes.new + 1 ≡ slab_len nodes.old) }
    ensures none_held { IfNone result (slab_len nodes.new ≡ slab_len nodes.old) }
    ensures capacity { nodes.new.capacity ≡ nodes.old.capacity }
{
    let line = &mut lines[seq];
    let node = take_first(nodes, &mut line.ends)?;
    Some((node.task, line.cell.take().unwrap()))
}

/// So many sequences without tasks, whose cells hold 0. The error is want of memory.
pub fn fresh_lines(alloc: Global, count: u32) -> Result<Vec<Line>, AllocError>
    ensures { IfOk result (λ lines. lines.items ≡ replicate count fresh_line) }
{
    let mut lines = Vec::with_capacity(alloc, count as usize)?;
    for _ in 0..count {
        lines.push(fresh_line())?;
    }
    Ok(lines)
}

/// A sequence without tasks, whose cell holds 0.
fn fresh_line() -> Line
    ensures { result ≡ fresh_line }
{
    Line {
        ends: Ends {
            first: 0,
            last: 0,
            count: 0,
        },
        cell: Some(Cell::new()),
    }
}

/// Brings the cell of a sequence home.
pub fn put_at(nodes: &Slab<Node>, lines: &mut [Line], seq: usize, cell: Cell)
    requires within { seq < length lines.old }
    requires whole { IsWhole nodes.now.slots lines.old (slab_len nodes.now) }
    ensures whole { IsWhole nodes.now.slots lines.new (slab_len nodes.now) }
    ensures sequences { let before = slice_index_or (sequences_of nodes.now.slots lines.old) seq fresh in
        sequences_of nodes.now.slots lines.new ≡ slice_set (sequences_of nodes.now.slots lines.old) seq (record before { cell = Some cell }) }
{
    let line = &mut lines[seq];
    line.cell = Some(cell);
}

/// Removes the tasks of a list that the phase forbids, and answers how many these were.
fn purge_list(nodes: &mut Slab<Node>, ends: &mut Ends, phase: Phase) -> usize
    requires within { slab_len nodes.old ≤ nodes.old.capacity }
    requires countable { slab_len nodes.old < 2 ^ 32 }
    requires counted { ends.old.count ≤ slab_len nodes.old }
    requires linked { IsLinked nodes.old.slots ends.old }
    ensures linked { IsLinked nodes.new.slots ends.new }
    ensures tasks { tasks_of nodes.new.slots ends.new ≡ filter (may_stay phase) (tasks_of nodes.old.slots ends.old) }
    ensures others { KeepsOthers nodes.old.slots ends.old nodes.new.slots ends.new }
    ensures count { ends.new.count + result ≡ ends.old.count }
    ensures held { slab_len nodes.new + result ≡ slab_len nodes.old }
    ensures capacity { nodes.new.capacity ≡ nodes.old.capacity }
{
    let mut removed = 0;
    for _ in 0..ends.count {
        removed += turn(nodes, ends, phase);
    }
    removed
}

/// Moves the first task of a list to its end, unless the phase forbids it, and answers how many are gone then.
fn turn(nodes: &mut Slab<Node>, ends: &mut Ends, phase: Phase) -> usize
    requires within { slab_len nodes.old ≤ nodes.old.capacity }
    requires countable { ends.old.count < 2 ^ 32 }
    requires linked { IsLinked nodes.old.slots ends.old }
    requires some { 0 < ends.old.count }
    ensures linked { IsLinked nodes.new.slots ends.new }
    ensures tasks { let before = tasks_of nodes.old.slots ends.old in
        tasks_of nodes.new.slots ends.new ≡ drop 1 before ++ filter (may_stay phase) (take 1 before) }
    ensures others { KeepsOthers nodes.old.slots ends.old nodes.new.slots ends.new }
    ensures count { ends.new.count + result ≡ ends.old.count }
    ensures held { slab_len nodes.new + result ≡ slab_len nodes.old }
    ensures capacity { nodes.new.capacity ≡ nodes.old.capacity }
{
    let Some(node) = take_first(nodes, ends) else {
        return 0;
    };
    if forbids(phase, node.effective) {
        return 1;
    }
    append(nodes, ends, Node { next: None, ..node });
    0
}

/// Removes the tasks of all sequences that the phase forbids, and answers how many these were.
pub fn purge_lines(nodes: &mut Slab<Node>, lines: &mut [Line], phase: Phase) -> usize
    requires within { slab_len nodes.old ≤ nodes.old.capacity }
    requires countable { slab_len nodes.old < 2 ^ 32 }
    requires whole { IsWhole nodes.old.slots lines.old (slab_len nodes.old) }
    ensures whole { IsWhole nodes.new.slots lines.new (slab_len nodes.new) }
    ensures sequences { sequences_of nodes.new.slots lines.new ≡ map (purged phase) (sequences_of nodes.old.slots lines.old) }
    ensures held { slab_len nodes.new + result ≡ slab_len nodes.old }
    ensures capacity { nodes.new.capacity ≡ nodes.old.capacity }
{
    let mut removed = 0;
    for seq in 0..lines.len() {
        removed += purge_at(nodes, lines, seq, phase);
    }
    removed
}

/// Removes the tasks of one sequence that the phase forbids, and answers how many these were.
fn purge_at(nodes: &mut Slab<Node>, lines: &mut [Line], seq: usize, phase: Phase) -> usize
    requires within { slab_len nodes.old ≤ nodes.old.capacity }
    requires countable { slab_len nodes.old < 2 ^ 32 }
    requires there { seq < length lines.old }
    requires whole { IsWhole nodes.old.slots lines.old (slab_len nodes.old) }
    ensures whole { IsWhole nodes.new.slots lines.new (slab_len nodes.new) }
    ensures sequences { sequences_of nodes.new.slots lines.new ≡ slice_set (sequences_of nodes.old.slots lines.old) seq
        (purged phase (slice_index_or (sequences_of nodes.old.slots lines.old) seq fresh)) }
    ensures held { slab_len nodes.new + result ≡ slab_len nodes.old }
    ensures capacity { nodes.new.capacity ≡ nodes.old.capacity }
{
    let line = &mut lines[seq];
    purge_list(nodes, &mut line.ends, phase)
}
