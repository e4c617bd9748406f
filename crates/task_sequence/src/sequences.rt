ghost use Rattle.std.specs.Prelude.{◌≡◌, ◌+◌, ◌-◌, ◌<◌, ◌≤◌, ◌↔◌, ◌++◌, ◌∷◌, [], length, map, replicate, true, is_some, All, IsSome, IsNone, IfOk, IfNone, OnSome};
ghost use Rattle.task_base.specs.Keys.{key_below};
ghost use Rattle.std.specs.List.{sum_by};
ghost use Rattle.task_sequence.specs.Sequences.{fresh, sequence_at, with_sequence, first_of, given_of, behind_first, purged, forbidden_in};

use crate::lines::{Line, append_at, fresh_lines, purge_lines, put_at, take_at};
use crate::links::{Node, first_task};
use slab::Slab;
use std::alloc::{AllocError, Global};
use std::marker::Model;
use task_base::{Behaviour, Cell, Key, Phase, SeqId, TaskId};

/// The tasks of the pool that wait, sequence by sequence, and the cell of each sequence (Chromium's
/// `thread_pool/sequence.h`; the cell is this project's own). Tasks of one sequence are taken in the order of their
/// keys, and the cell goes with the task that is taken, so that two tasks of a sequence cannot run at once.
///
/// All room is taken by `new`. Each call takes the same time whatever is held, but `purge` looks at each task once.
#[derive(Drop)]
pub struct Sequences {
    nodes: Slab<Node>,
    lines: Vec<Line>,
    /// How many tasks may be held at once.
    most: u32,
}

impl Model for Sequences {
    ghost use Rattle.std.specs.Prelude.{◌≡◌, ◌-◌, ◌≤◌};
    ghost use Rattle.slab.specs.Slab.{slab_len};
    ghost use Rattle.task_sequence.specs.Sequences.{Held};

    ghost Value = { Held };

    ghost use Rattle.task_sequence.specs.Lines.{IsWhole, sequences_of};

    ghost view = { λ s. record { sequences = sequences_of s.nodes.slots s.lines.items; room = s.most - slab_len s.nodes; capacity = s.nodes.capacity } };

    ghost invariant = { λ s. IsWhole s.nodes.slots s.lines.items (slab_len s.nodes) × (slab_len s.nodes ≤ s.most)
        × (s.most ≤ s.nodes.capacity) };
}

impl Sequences {
    /// Sequences without tasks, whose cells hold 0, with room for so many tasks in all. The error is want of memory.
    pub fn new(alloc: Global, sequences: u32, tasks: u32) -> Result<Sequences, AllocError>
        ensures sequences { IfOk result (λ s. s.sequences ≡ replicate sequences fresh) }
        ensures room { IfOk result (λ s. s.room ≡ tasks) }
    {
        let nodes = Slab::with_capacity(alloc, tasks as usize)?;
        let lines = fresh_lines(alloc, sequences)?;
        Ok(Sequences {
            nodes,
            lines,
            most: tasks,
        })
    }

    /// Puts a task at the end of its sequence.
    pub fn push(&mut self, seq: SeqId, task: TaskId, key: Key, effective: Behaviour)
        requires there { seq < length self.old.sequences }
        requires room { 0 < self.old.room }
        requires above { All (λ w. key_below w.key key ≡ true) (sequence_at self.old seq).tasks }
        ensures { let before = sequence_at self.old seq in self.new ≡ record self.old {
          sequences = with_sequence self.old seq (record before {
            tasks = before.tasks ++ (record { task = task; key = key; effective = effective }) ∷ [];
          });
          room = self.old.room - 1;
        } }
    {
        let node = Node {
            task,
            key,
            effective,
            next: None,
        };
        append_at(
            &mut self.nodes,
            self.lines.as_mut_slice(),
            seq as usize,
            node,
        );
    }

    /// The task that is taken next of a sequence, with its key, if one waits.
    pub fn head(&self, seq: SeqId) -> Option<(TaskId, Key)>
        requires { seq < length self.now.sequences }
        ensures first { result ≡ first_of (sequence_at self.now seq).tasks }
        ensures none { IsNone result ↔ ((sequence_at self.now seq).tasks ≡ []) }
    {
        let line = &self.lines[seq as usize];
        first_task(&self.nodes, &line.ends)
    }

    /// Whether the cell of a sequence is at home: no task of the sequence runs.
    pub fn is_home(&self, seq: SeqId) -> bool
        requires { seq < length self.now.sequences }
        ensures { result ≡ is_some (sequence_at self.now seq).cell }
    {
        self.lines[seq as usize].cell.is_some()
    }

    /// Takes the first task out of a sequence, with the cell, which is out from then on; None where no task waits.
    pub fn take_out(&mut self, seq: SeqId) -> Option<(TaskId, Cell)>
        requires there { seq < length self.old.sequences }
        requires home { IsSome (sequence_at self.old seq).cell }
        ensures given { let before = sequence_at self.old seq in result ≡ given_of before.tasks before.cell }
        ensures none { IsNone result ↔ ((sequence_at self.old seq).tasks ≡ []) }
        ensures taken { OnSome result (self.new ≡ record self.old {
          sequences = with_sequence self.old seq (record { tasks = behind_first (sequence_at self.old seq).tasks; cell = None });
          room = self.old.room + 1;
        }) }
        ensures unchanged { IfNone result (self.new ≡ self.old) }
    {
        take_at(&mut self.nodes, self.lines.as_mut_slice(), seq as usize)
    }

    /// Brings the cell of a sequence home, with the value that a task left.
    pub fn put_back(&mut self, seq: SeqId, cell: Cell)
        requires there { seq < length self.old.sequences }
        requires out { (sequence_at self.old seq).cell ≡ None }
        ensures { self.new ≡ record self.old {
          sequences = with_sequence self.old seq (record (sequence_at self.old seq) { cell = Some cell });
        } }
    {
        put_at(&self.nodes, self.lines.as_mut_slice(), seq as usize, cell);
    }

    /// Removes the tasks that the phase forbids to start, and answers how many these were. The others keep their order.
    pub fn purge(&mut self, phase: Phase) -> u32
        ensures removed { result ≡ sum_by (forbidden_in phase) self.old.sequences }
        ensures left { self.new ≡ record self.old {
          sequences = map (purged phase) self.old.sequences;
          room = self.old.room + result;
        } }
    {
        purge_lines(&mut self.nodes, self.lines.as_mut_slice(), phase) as u32
    }
}
