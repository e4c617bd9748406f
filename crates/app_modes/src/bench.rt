//! The mode `bench`.
ghost use Rattle.std.specs.Prelude.{◌≡◌, ◌≢◌, ◌⊎◌, ◌+◌, ◌≤◌, ◌++◌, ℕ, Option, Some, Err, alloc_error, IfOk, IfErr, length};
ghost use Rattle.run_summary.specs.Summary.{generated_totals};
ghost use Rattle.command_line.specs.declared.words.Command.TheVariants.{Bench};
ghost use Rattle.app_streams.specs.Ends.{Ends, ends};
ghost use Rattle.app_modes.specs.Outcome.{RunsTo};
ghost use Rattle.app_modes.specs.Totals.{summary_text, total_line};
ghost use Rattle.command_line.specs.declared.options.TheConstants.{MOST_SIZE};

use crate::runs::log_of_run;
use app_streams::write_text;
use env_io::{Gate, Sink, StepClock};
use env_pauses::WorkingGate;
use line_text::{Line, add, add_number};
use run_summary::{Cells, Summary, runs_of_generated_scripts_add_up, summary};
use std::alloc::{AllocError, Global};
use std::rt::Clock;
use std::sync::Wait;
use std::thread::Threads;
use task_base::Fault;
use task_script::generate;

/// Runs the script that is made from a number, and writes what its log adds up to. It has from 1 to 8,192 tasks, and
/// each task of the pool works that many nanoseconds.
pub fn run_generated<R: Threads + Wait + Sync + Clock, K: Sink, G: Gate>(
    rt: &R,
    alloc: Global,
    number: u64,
    size: u32,
    work: u64,
    sink: &mut K,
    gate: &G,
) -> Result<(), Fault>
    requires some { 1 ≤ size }
    requires few { size ≤ MOST_SIZE }
    ensures outcome { (told : ℕ → Option ℕ) (source : Ends) → RunsTo (Some (Bench number size work)) told source
        (ends (K.holds sink.old) (K.holds sink.new) (K.faults sink.old) (K.faults sink.new)) result }
    ensures faults { IfErr result (λ fault. (fault ≡ Fault.WriteFault) ⊎ (fault ≡ Fault.NoMemory alloc_error)) }
    ensures sink_kept { IfErr result (λ fault. fault ≢ Fault.WriteFault → sink.new ≡ sink.old) }
    ensures sink_steady { result ≢ Err Fault.WriteFault → K.faults sink.new ≡ K.faults sink.old }
{
    let totals = match totals_of_run(rt, alloc, number, size, &WorkingGate::new(gate, rt, work)) {
        Ok(totals) => totals,
        Err(error) => return Err(Fault::NoMemory(error)),
    };
    write_text(sink, &summary_text(&totals))
}

/// What the log of a run of that script adds up to. The script has no ticks, so its clock is never read. The error is out
/// of memory, and comes before the first entry.
fn totals_of_run<R: Threads + Wait + Sync + Clock, G: Gate>(
    rt: &R,
    alloc: Global,
    number: u64,
    size: u32,
    gate: &G,
) -> Result<Summary, AllocError>
    requires some { 1 ≤ size }
    requires few { size ≤ MOST_SIZE }
    ensures { IfOk result (λ totals. totals ≡ generated_totals number size) }
{
    let script = generate(alloc, number, size)?;
    let cells = Cells::new(alloc, &script)?;
    let log = log_of_run(rt, alloc, &script, None, None, &mut StepClock::new(1), gate)?;
    runs_of_generated_scripts_add_up();
    Ok(summary(cells, &script, &log))
}

/// The four lines of a summary.
fn summary_text(totals: &Summary) -> Line
    ensures { result.items ≡ summary_text totals.now }
{
    let mut text = Line::new();
    add_total(&mut text, b"tasks", u64::from(totals.tasks));
    add_total(&mut text, b"items", u64::from(totals.items));
    add_total(&mut text, b"cells", totals.cells);
    add_total(&mut text, b"sums", totals.sums);
    text
}

/// Adds a name and its number, with a line feed.
fn add_total(text: &mut Line, name: &[u8], number: u64)
    requires name { length name.now ≤ 5 }
    requires room { length text.old.items ≤ 100 }
    ensures items { text.new.items ≡ text.old.items ++ total_line name.now number }
    ensures short { length text.new.items ≤ length text.old.items + 27 }
{
    add(text, name);
    add_number(text, number);
    add(text, b"\n");
}
