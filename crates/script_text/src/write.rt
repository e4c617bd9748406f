ghost use Rattle.std.specs.Prelude.{◌≡◌, ◌≤◌, ℕ, List, take, OnOk, OnErr};
ghost use Rattle.env_io.specs.Bytes.{Gains, Rose};
ghost use Rattle.script_model.specs.Canonical.{canonical};
ghost use Rattle.script_text.specs.Written.{Puts, texts_from, step_text, runner_text, queue_text, task_text, job_text, action_text};

use crate::write_lines::{
    action_line, config_lines, job_head, line_end, queue_line, runner_line, step_piece, task_head,
};
use env_io::{Failed, Sink, put_all};
use line_text::Line;
use task_base::{Action, Job, MainQueue, Runner, Script, Step, Task};

/// Puts the canonical text of the script, in pieces of at most 256 bytes: the configuration, each line of a runner, a
/// queue or an action, and of the line of a task or a job its head, each step and its end. It takes no memory.
///
/// `Failed`: a `put` failed. What went out before stays out.
pub fn write_script<K: Sink>(sink: &mut K, script: &Script) -> Result<(), Failed>
    ensures written { OnOk result (Gains (K.holds sink.old) (canonical script.now) (K.holds sink.new)) }

    // What went out is a prefix of the text.
    ensures cut { OnErr result ((n : ℕ) × Gains (K.holds sink.old) (take n (canonical script.now)) (K.holds sink.new)) }
    ensures failed { OnErr result (Rose (K.faults sink.old) (K.faults sink.new)) }
    ensures steady { OnOk result (K.faults sink.new ≡ K.faults sink.old) }
    ensures faults { K.faults sink.old ≤ K.faults sink.new }
{
    put_script(sink, script)
}

fn put_script<K: Sink>(sink: &mut K, script: &Script) -> Result<(), Failed>
    ensures { Puts K.holds K.faults sink.old (canonical script.now) result sink.new }
{
    put_piece(sink, &config_lines(script))?;
    put_each(sink, script.runners.as_slice())?;
    put_each(sink, script.queues.as_slice())?;
    put_each(sink, script.tasks.as_slice())?;
    put_each(sink, script.jobs.as_slice())?;
    put_each(sink, script.actions.as_slice())
}

// What is put once for each element of a list, as the line of a runner or a step in its line.
trait Element {
    // The text of an element, by its place in the list.
    ghost text: { ℕ → Self → List ℕ };

    fn put<K: Sink>(&self, sink: &mut K, place: u64) -> Result<(), Failed>
        ensures { Puts K.holds K.faults sink.old (text place self.now) result sink.new };
}

fn put_each<K: Sink, E: Element>(sink: &mut K, elements: &[E]) -> Result<(), Failed>
    ensures { Puts K.holds K.faults sink.old (texts_from E.text 0 elements.now) result sink.new }
{
    for (place, element) in elements.iter().enumerate() {
        element.put(sink, place as u64)?;
    }
    Ok(())
}

impl Element for Runner {
    ghost text = { runner_text };

    fn put<K: Sink>(&self, sink: &mut K, place: u64) -> Result<(), Failed> {
        put_piece(sink, &runner_line(place, self))
    }
}

impl Element for MainQueue {
    ghost text = { queue_text };

    fn put<K: Sink>(&self, sink: &mut K, place: u64) -> Result<(), Failed> {
        put_piece(sink, &queue_line(place, self))
    }
}

impl Element for Task {
    ghost text = { task_text };

    fn put<K: Sink>(&self, sink: &mut K, place: u64) -> Result<(), Failed> {
        put_piece(sink, &task_head(place))?;
        put_each(sink, self.steps.as_slice())?;
        put_piece(sink, &line_end())
    }
}

impl Element for Job {
    ghost text = { job_text };

    fn put<K: Sink>(&self, sink: &mut K, place: u64) -> Result<(), Failed> {
        put_piece(sink, &job_head(place, self))?;
        put_each(sink, self.steps.as_slice())?;
        put_piece(sink, &line_end())
    }
}

impl Element for Action {
    ghost text = { action_text };

    fn put<K: Sink>(&self, sink: &mut K, place: u64) -> Result<(), Failed> {
        put_piece(sink, &action_line(place, self))
    }
}

impl Element for Step {
    ghost text = { step_text };

    fn put<K: Sink>(&self, sink: &mut K, place: u64) -> Result<(), Failed> {
        put_piece(sink, &step_piece(place, self))
    }
}

// Puts a piece. Nothing else of this module puts bytes, and the type of a piece holds at most 256.
fn put_piece<K: Sink>(sink: &mut K, piece: &Line) -> Result<(), Failed>
    ensures { Puts K.holds K.faults sink.old piece.now.items result sink.new }
{
    put_all(sink, piece)
}
