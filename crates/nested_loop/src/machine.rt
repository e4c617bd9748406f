ghost use Rattle.std.specs.Prelude.{◌≡◌, ◌<◌, ◌^◌, slice_get, IsSome};
ghost use Rattle.nested_loop.specs.Nest.{is_nestable, steps_of};

use crate::deferred::Deferred;
use crate::event::Event;
use crate::frame::{Frame, Frames};
use crate::nest::{Nest, NestAction, NestStep};
use crate::waiting::Waiting;
use std::alloc::{AllocError, Global};
use task_base::TaskId;

/// A nest that runs, event by event. It stands for the events so far.
#[derive(Drop)]
pub(crate) struct Machine {
    waiting: Waiting,
    deferred: Deferred,
    frames: Frames,
    /// How many actions were begun.
    begun: usize,
    /// How many loops are open.
    depth: u32,
}

impl Machine {
    ghost use Rattle.std.specs.Prelude.{◌≡◌, ◌+◌, ◌-◌, ◌<◌, ◌≤◌, ◌^◌, List, [], ◌∷◌, length, IfOk, Some, None, slice_get};
    ghost use Rattle.nested_loop.specs.Nest.{left};
    ghost use Rattle.nested_loop.specs.Plan.{NestPlan};
    ghost use Rattle.nested_loop.specs.Room.{events_bound};
    ghost use Rattle.nested_loop.specs.Stands.{IsTakenNext, Made, Moves, Stands};
    ghost use Rattle.nested_loop.specs.Sound.{IsSoundNest};
    ghost use Rattle.nested_loop.specs.declared.event.Event.{Event};
    ghost use Rattle.nested_loop.specs.declared.event.Event.TheVariants as events;
    ghost use Rattle.nested_loop.specs.declared.frame.Frame.TheVariants as frames;

    /// A nest before its first event, with room for so many. The error is want of memory.
    pub fn new(alloc: Global, nest: &Nest, room: usize) -> Result<Machine, AllocError>
        requires sound { IsSoundNest nest.now }
        requires room { events_bound nest.now ≤ room }
        ensures { IfOk result (λ machine. Stands nest.now [] machine) }
    {
        let waiting = Waiting::new(alloc, nest)?;
        let deferred = Deferred::new(alloc, room)?;
        let frames = Frames::new(alloc, room)?;
        Ok(Machine {
            waiting,
            deferred,
            frames,
            begun: 0,
            depth: 0,
        })
    }

    /// The event that comes next, none where the actions are through.
    pub fn next_event(&mut self, nest: &Nest) -> Option<Event>
        requires { (past : List Event) × Stands nest.now past self.old }
        ensures { (past : List Event) → Stands nest.now past self.old → Moves nest.now past result self.new }
    {
        match self.frames.innermost() {
            None => self.act(nest),
            Some(Frame::Task { task, begun }) => Some(self.step_task(nest, task, begun)),
            Some(Frame::Loop { bound, ended }) => Some(self.step_loop(nest, bound, ended)),
        }
    }

    // The next action begins, outside of all loops.
    fn act(&mut self, nest: &Nest) -> Option<Event>
        requires { (past : List Event) × Stands nest.now past self.old × (slice_get self.old.frames.items 0 ≡ None) }
        ensures { (past : List Event) → Stands nest.now past self.old → slice_get self.old.frames.items 0 ≡ None → Moves nest.now past result self.new }
    {
        let action = *nest.actions.at(self.begun)?;
        self.begun += 1;
        match action {
            NestAction::Post { task, queue } => {
                self.waiting.post(task, queue);
                Some(Event::Post { task, queue })
            }
            NestAction::Run(bound) => {
                self.enter_loop(bound);
                Some(Event::Loop { depth: 1 })
            }
        }
    }

    // The innermost task does its next step, or ends.
    fn step_task(&mut self, nest: &Nest, task: TaskId, begun: usize) -> Event
        requires { (past : List Event) × Stands nest.now past self.old × (slice_get self.old.frames.items 0 ≡ Some (frames.Task task begun)) }
        ensures { (past : List Event) → Stands nest.now past self.old → slice_get self.old.frames.items 0 ≡ Some (frames.Task task begun)
            → Made nest.now past result self.new }
    {
        match step_at(nest, task, begun) {
            None => {
                self.frames.end_task();
                Event::End { task }
            }
            Some(step) => {
                self.frames.replace(Frame::Task {
                    task,
                    begun: begun + 1,
                });
                match step {
                    NestStep::Say(value) => Event::Say { value },
                    NestStep::Post { task, queue } => {
                        self.waiting.post(task, queue);
                        Event::Post { task, queue }
                    }
                    NestStep::Loop(bound) => {
                        self.enter_loop(bound);
                        Event::Loop { depth: self.depth }
                    }
                }
            }
        }
    }

    // The innermost loop goes on, or quits.
    fn step_loop(&mut self, nest: &Nest, bound: u32, ended: u32) -> Event
        requires { (past : List Event) × Stands nest.now past self.old × (slice_get self.old.frames.items 0 ≡ Some (frames.Loop bound ended)) }
        ensures { (past : List Event) → Stands nest.now past self.old → slice_get self.old.frames.items 0 ≡ Some (frames.Loop bound ended)
            → Made nest.now past result self.new }
    {
        if ended == bound {
            return self.quit();
        }
        if self.depth == 1 {
            return match self.next_outermost() {
                Some(task) => self.start(task),
                None => self.quit(),
            };
        }
        match self.waiting.take() {
            None => self.quit(),
            Some(task) if is_nestable(nest, task) => self.start(task),
            Some(task) => {
                self.deferred.push(task);
                Event::Defer { task }
            }
        }
    }

    // Takes the task that the outermost loop starts next: the first of the deferred ones, or else the front.
    fn next_outermost(&mut self) -> Option<TaskId>
        requires { (nest : NestPlan) × (past : List Event) × Stands nest past self.old × (length past < events_bound nest) }
        ensures { (nest : NestPlan) (past : List Event) → Stands nest past self.old → length past < events_bound nest → IsTakenNext nest past result self.old self.new }
    {
        match self.deferred.take_first() {
            Some(task) => Some(task),
            None => self.waiting.take(),
        }
    }

    // A loop opens.
    fn enter_loop(&mut self, bound: u32)
        requires room { 0 < self.old.frames.spare }
        requires depth { self.old.depth + 1 < 2 ^ 32 }
        ensures others { self.new ≡ record self.old { frames = self.new.frames; depth = self.old.depth + 1 } }
        ensures frames { self.new.frames.items ≡ frames.Loop bound 0 ∷ self.old.frames.items }
        ensures spare { self.new.frames.spare + 1 ≡ self.old.frames.spare }
    {
        self.frames.enter(Frame::Loop { bound, ended: 0 });
        self.depth += 1;
    }

    // The innermost loop quits.
    fn quit(&mut self) -> Event
        requires { 1 ≤ self.old.depth }
        ensures event { result ≡ events.Quit self.old.depth }
        ensures others { self.new ≡ record self.old { frames = self.new.frames; depth = self.old.depth - 1 } }
        ensures frames { self.new.frames.items ≡ left self.old.frames.items }
        ensures spare { self.old.frames.spare ≤ self.new.frames.spare }
    {
        let depth = self.depth;
        self.frames.leave();
        self.depth -= 1;
        Event::Quit { depth }
    }

    // A task starts in the innermost loop.
    fn start(&mut self, task: TaskId) -> Event
        requires { 0 < self.old.frames.spare }
        ensures event { result ≡ events.Start task self.old.depth }
        ensures others { self.new ≡ record self.old { frames = self.new.frames } }
        ensures frames { self.new.frames.items ≡ frames.Task task 0 ∷ self.old.frames.items }
        ensures spare { self.new.frames.spare + 1 ≡ self.old.frames.spare }
    {
        self.frames.enter(Frame::Task { task, begun: 0 });
        Event::Start {
            task,
            depth: self.depth,
        }
    }
}

// The step of a task at a place, if it has so many.
fn step_at(nest: &Nest, task: TaskId, place: usize) -> Option<NestStep>
    ensures step { result ≡ slice_get (steps_of nest.now task) place }
    ensures bound { IsSome result → place < 2 ^ 63 }
{
    nest.tasks.at(task as usize)?.steps.at(place).copied()
}

// Whether a task may start in a nested loop.
fn is_nestable(nest: &Nest, task: TaskId) -> bool
    ensures { result ≡ is_nestable nest.now task }
{
    match nest.tasks.at(task as usize) {
        Some(task) => task.nestable,
        None => false,
    }
}
