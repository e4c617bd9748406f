ghost use Rattle.std.specs.Prelude.{◌≡◌, ◌≢◌, ◌⊎◌, ℕ, List, Option, Bool, map, string_bytes, Some, None, Err};
ghost use Rattle.task_base.specs.Plan.{Plan};
ghost use Rattle.task_base.specs.declared.entry.Entry.{Entry};
ghost use Rattle.script_model.specs.Canonical.{canonical};
ghost use Rattle.run_summary.specs.Summary.{generated_totals};
ghost use Rattle.env_io.specs.Bytes.{Gains, Rose};
ghost use Rattle.command_line.specs.declared.words.Command.TheVariants.{Run, Simulate, Check, CheckOpen, Explain, ExplainOpen, Arrange, ArrangeOpen};
ghost use Rattle.command_line.specs.declared.words.Command.TheVariants.{Reply, Trace, TraceOpen, Nest, Lint, Generate, Bench};
ghost use Rattle.command_line.specs.declared.options.Favour.{Favour};
ghost use Rattle.command_line.specs.declared.options.Shake.{Shake};
ghost use Rattle.command_line.specs.declared.options.Wide.{Wide};
ghost use Rattle.command_line.specs.declared.words.Linted.{Linted};
ghost use Rattle.command_line.specs.declared.words.Linted.TheVariants as linted;
ghost use Rattle.command_line.specs.CommandLine.{IsJudge, IsOpenJudge, ReadsClock, TakesInput, WritesJson, command_of, takes_prefix};
ghost use Rattle.app_modes.specs.declared.failure.Failure.{Failure};
ghost use Rattle.app_modes.specs.Failures.{note_line};
ghost use Rattle.app_modes.specs.Arranged.{HasArranged};
ghost use Rattle.app_modes.specs.Judged.{HasChecked, HasLegalLog, HasTraced, IsLegalLog};
ghost use Rattle.app_modes.specs.Explained.{HasExplained};
ghost use Rattle.app_modes.specs.ExplainedOpen.{HasExplainedOpen};
ghost use Rattle.app_modes.specs.Opened.{HasArrangedOpen, HasCheckedOpen, HasLegalOpenLog, HasTracedOpen, IsLegalOpenLog};
ghost use Rattle.app_modes.specs.Linted.{IsSaid, lint_said};
ghost use Rattle.app_modes.specs.Totals.{summary_text};
ghost use Rattle.script_lint.specs.Lint.{fault_line};
ghost use Rattle.script_model.specs.Grammar.{first_fault};
ghost use Rattle.app_streams.specs.Ends.{ends};
ghost use Rattle.app_streams.specs.Taken.{OfTaken};
ghost use Rattle.app_streams.specs.Written.{WroteAll, WroteFront};
ghost use Rattle.app_modes.specs.Outcome.{HasNested, HasReplied, HasRun, HasSimulated, made, readings_of};
ghost use Rattle.env_app.specs.Statuses.{IsEnd, IsVerdictOf, HasCause};

use crate::notes::tell;
use app_modes::execute;
use env_io::{Clock, Gate, Sink, Source};
use std::alloc::Global;
use std::rt;
use std::sync::Wait;
use std::thread::Threads;

/// Does what the words ask for, and answers the exit status (this project's own rule).
///
/// The command is `taskenv MODE [--step N] [--json] [--prefix] [--number N] [--size N] [--replies] [--nest] [--full] [--seed N]
/// [--favour WORD] [--jump] [--shake N] [--work N] [--wide] [--no-jobs] [--no-main] [--no-delays] [--no-scopes] [--no-shutdown] [--most N]
/// [--open]`,
/// the program's name first.
/// The modes are:
///
/// - `run` reads a script from the source, to its end, runs it, and writes the run's log to the sink, as text or with
///   `--json` as JSON. With `--shake` its threads pause up to that many microseconds, by `--seed`: each worker after its take of
///   a task, and the driver before each of its entries.
/// - `simulate` reads what `run` reads, and runs it on one thread, whose seats take turns by draws, by `--seed`. Of the lots in
///   each draw the driver has 8 to each worker's one with `--favour driver`, each worker 8 to the driver's one with
///   `--favour workers`, and else all have one. Ticks are `--step` apart, or each goes on to the next moment that is awaited. It writes
///   what `run` does of its log, which is the same whenever it is asked for.
/// - `check` reads a script, the line `%%` and a log from the source, to its end, and writes whether the log is that of a
///   whole run of the script, which is status 0, or at which line it is not, which is status 1. With `--prefix` the log may
///   also end before the script is done. With `--open`, here and in `explain`, `arrange` and `trace`, the script only declares, and the
///   log is that of whatever an environment of its open plan did, at whose end nobody is at work, or with `--prefix` it may end anywhere; a
///   script of no open plan is status 3.
/// - `explain` does what `check` does, and writes behind the line at which a log is wrong why, in words or with `--json` in JSON.
/// - `arrange` reads a script, the line `%%` and what each seat saw from the source, to its end, and writes the log of an order of it that
///   may have come, which is status 0; or that there is none, which is status 1, or that `--most` steps found none, which is status 8,
///   and how far an order goes. Where the text is that of no events which seats of the script may have seen, that is status 3. With
///   `--prefix` the log may also end before the script is done.
/// - `reply` reads a script, the line `%%` and replies from the source, to its end, and does what `run` does of the script
///   whose tasks post their replies.
/// - `trace` reads what `check` reads, and writes the log as trace events, which is status 0, where it is that of a whole
///   run of the script, or with `--prefix` of the beginning of one, and else nothing, which is status 1. With `--full` the
///   events say all that the log and the script tell.
/// - `nest` reads a nest script from the source, to its end, runs it, and writes its log.
/// - `lint` reads a script from the source, to its end, or with `--replies` what `reply` reads, or with `--nest` what `nest` reads, and
///   writes why it is none, in one line, where it is none, which is status 1.
/// - `gen` writes the script that is made from `--number`, of `--size` tasks, and reads nothing. With `--wide` it has everything that a
///   script may have, but for what the flags leave out.
/// - `bench` runs that script, where each task of the pool works `--work` nanoseconds, and writes what the log of the run adds up
///   to. It reads nothing.
///
/// A status above 0 is that of a `Failure`, whose note goes to the notes, but for the verdict of `check`, `explain`, `arrange` and `lint`.
/// Out of memory comes before the first entry of a run, or with `--json` and in `trace` before the first byte is written. The gate
/// is called between each take of a task of the pool and the task's first step, while no turn is held. The clock is read by
/// `run` and `reply` alone, once for each tick, or with `--step` not at all: its readings are then N, 2N, 3N and so on, in
/// microseconds. Pauses and work go by the system's own clock.
///
/// The driver is the caller's thread, and in `run`, `reply` and `bench` each worker has a thread of its own, as far as the
/// system gives them: what a worker without one would do, the caller does while it waits. It may wait for the threads for
/// ever; nothing is promised of time.
pub fn run_words<
    R: Threads + Wait + Sync + rt::Clock,
    S: Source,
    K: Sink,
    N: Sink,
    C: Clock,
    G: Gate,
>(
    rt: &R,
    alloc: Global,
    words: &[String],
    source: &mut S,
    sink: &mut K,
    notes: &mut N,
    clock: &mut C,
    gate: &G,
) -> u8
    // The run theorem: the bytes that were taken from the source, to its end, are a script, and what was added to the sink is the
    // text of one history that is legal and whole for it, or with `--json` its JSON form and a line feed. Where the source tells
    // its bytes, they are these. The moments of the history's ticks are those of as many first readings: with `--step` always,
    // and else where the clock tells its readings.
    ensures run_theorem { (step : Option ℕ) (json : Bool) (shake : Option Shake) → command_of (map string_bytes words.now) ≡ Some (Run step json shake)
        → result ≡ 0
        → OfTaken (ends (S.left source.old) (S.left source.new) (S.faults source.old) (S.faults source.new))
        (λ bytes. HasRun bytes json (readings_of step (C.readings clock.old)) (WroteAll (K.holds sink.old) (K.holds sink.new))) }

    // `simulate` writes so the one history that its seed, its favour and its ticks give, which is legal and whole for the script.
    ensures simulated { (seed : ℕ) (favour : Favour) (step : Option ℕ) (json : Bool)
        → command_of (map string_bytes words.now) ≡ Some (Simulate seed favour step json) → result ≡ 0
        → OfTaken (ends (S.left source.old) (S.left source.new) (S.faults source.old) (S.faults source.new))
        (λ bytes. HasSimulated bytes seed favour step json (WroteAll (K.holds sink.old) (K.holds sink.new))) }

    // `check` answers 0 or 1 by the line at which the log behind the script is found wrong, and writes that line; `trace` writes
    // the log's trace under 0, with `--full` the full one, and nothing under 1. 0 comes only where the log is a legal, whole one of the script, whose numbers
    // fit, and 1 only where there is none, whatever its numbers are. With `--prefix` nothing is asked of whole, and the beginning of a log's text
    // will do.
    ensures verdict { (prefix : Bool) → command_of (map string_bytes words.now) ≡ Some (Check prefix) → (result ≡ 0) ⊎ (result ≡ 1)
        → OfTaken (ends (S.left source.old) (S.left source.new) (S.faults source.old) (S.faults source.new))
        (λ bytes. HasChecked prefix bytes (λ status text. (result ≡ status) × WroteAll (K.holds sink.old) (K.holds sink.new) text)) }
    // `check --open` answers and writes the same of a log of the script's open plan, as do `explain --open` and `trace --open`. 0 comes only
    // where the log is legal for the plan, its numbers fit, and nobody runs or holds anything at its end, and 1 only where there is none;
    // with `--prefix` nothing is asked of its end.
    ensures open_verdict { (prefix : Bool) → command_of (map string_bytes words.now) ≡ Some (CheckOpen prefix) → (result ≡ 0) ⊎ (result ≡ 1)
        → OfTaken (ends (S.left source.old) (S.left source.new) (S.faults source.old) (S.faults source.new))
        (λ bytes. HasCheckedOpen prefix bytes (λ status text. (result ≡ status) × WroteAll (K.holds sink.old) (K.holds sink.new) text)) }
    ensures legal_open_log { IsOpenJudge (command_of (map string_bytes words.now)) → result ≡ 0
        → OfTaken (ends (S.left source.old) (S.left source.new) (S.faults source.old) (S.faults source.new))
        (HasLegalOpenLog (takes_prefix (command_of (map string_bytes words.now)))) }
    ensures no_legal_open_log { IsOpenJudge (command_of (map string_bytes words.now)) → result ≡ 1
        → OfTaken (ends (S.left source.old) (S.left source.new) (S.faults source.old) (S.faults source.new))
        (λ bytes. (script : Plan) (log : List Entry) → ¬ IsLegalOpenLog (takes_prefix (command_of (map string_bytes words.now))) bytes script log) }
    // `explain` writes what `check` writes, and behind it an explanation of the verdict: a cause that holds, and with most of them
    // an entry that would be allowed there; or where the text is that of no log, which mistake its first bad line has.
    ensures explained { (json prefix : Bool) → command_of (map string_bytes words.now) ≡ Some (Explain json prefix) → (result ≡ 0) ⊎ (result ≡ 1)
        → OfTaken (ends (S.left source.old) (S.left source.new) (S.faults source.old) (S.faults source.new))
        (λ bytes. HasExplained json prefix bytes (λ status text. (result ≡ status) × WroteAll (K.holds sink.old) (K.holds sink.new) text)) }
    ensures open_explained { (json prefix : Bool) → command_of (map string_bytes words.now) ≡ Some (ExplainOpen json prefix) → (result ≡ 0) ⊎ (result ≡ 1)
        → OfTaken (ends (S.left source.old) (S.left source.new) (S.faults source.old) (S.faults source.new))
        (λ bytes. HasExplainedOpen json prefix bytes (λ status text. (result ≡ status) × WroteAll (K.holds sink.old) (K.holds sink.new) text)) }
    // `arrange` writes the log of an order of the events behind the script, with 0; 1 comes only where there is none, and 8 where none
    // was found. `arrange --open` does so by the rules of the script's open plan.
    ensures arranged { (prefix : Bool) (most : ℕ) → command_of (map string_bytes words.now) ≡ Some (Arrange prefix most)
        → (result ≡ 0) ⊎ (result ≡ 1) ⊎ (result ≡ 8)
        → OfTaken (ends (S.left source.old) (S.left source.new) (S.faults source.old) (S.faults source.new))
        (λ bytes. HasArranged prefix bytes (λ status text. (result ≡ status) × WroteAll (K.holds sink.old) (K.holds sink.new) text)) }
    ensures open_arranged { (prefix : Bool) (most : ℕ) → command_of (map string_bytes words.now) ≡ Some (ArrangeOpen prefix most)
        → (result ≡ 0) ⊎ (result ≡ 1) ⊎ (result ≡ 8)
        → OfTaken (ends (S.left source.old) (S.left source.new) (S.faults source.old) (S.faults source.new))
        (λ bytes. HasArrangedOpen prefix bytes (λ status text. (result ≡ status) × WroteAll (K.holds sink.old) (K.holds sink.new) text)) }
    ensures traced { (full prefix : Bool) → command_of (map string_bytes words.now) ≡ Some (Trace full prefix) → (result ≡ 0) ⊎ (result ≡ 1)
        → OfTaken (ends (S.left source.old) (S.left source.new) (S.faults source.old) (S.faults source.new))
        (λ bytes. HasTraced full prefix bytes (λ status text. (result ≡ status) × WroteAll (K.holds sink.old) (K.holds sink.new) text)) }
    ensures open_traced { (full prefix : Bool) → command_of (map string_bytes words.now) ≡ Some (TraceOpen full prefix) → (result ≡ 0) ⊎ (result ≡ 1)
        → OfTaken (ends (S.left source.old) (S.left source.new) (S.faults source.old) (S.faults source.new))
        (λ bytes. HasTracedOpen full prefix bytes (λ status text. (result ≡ status) × WroteAll (K.holds sink.old) (K.holds sink.new) text)) }
    ensures legal_log { IsJudge (command_of (map string_bytes words.now)) → result ≡ 0
        → OfTaken (ends (S.left source.old) (S.left source.new) (S.faults source.old) (S.faults source.new))
        (HasLegalLog (takes_prefix (command_of (map string_bytes words.now)))) }
    ensures no_legal_log { IsJudge (command_of (map string_bytes words.now)) → result ≡ 1
        → OfTaken (ends (S.left source.old) (S.left source.new) (S.faults source.old) (S.faults source.new))
        (λ bytes. (script : Plan) (log : List Entry) → ¬ IsLegalLog (takes_prefix (command_of (map string_bytes words.now))) bytes script log) }

    // `lint` answers 0 and writes nothing, or 1 and writes one line, by what is said of its input. Of a script that is 1 exactly where the
    // grammar gives none; the line and the reason are those of the fault, and the word is at the first place of that line for which
    // the reason holds.
    ensures linted { (input : Linted) → command_of (map string_bytes words.now) ≡ Some (Lint input) → (result ≡ 0) ⊎ (result ≡ 1)
        → OfTaken (ends (S.left source.old) (S.left source.new) (S.faults source.old) (S.faults source.new))
        (λ bytes. IsSaid (lint_said input bytes) (λ status text. (result ≡ status) × WroteAll (K.holds sink.old) (K.holds sink.new) text)) }
    ensures lint_finds_none { command_of (map string_bytes words.now) ≡ Some (Lint linted.Script) → result ≡ 0
        → OfTaken (ends (S.left source.old) (S.left source.new) (S.faults source.old) (S.faults source.new)) (λ bytes. first_fault bytes ≡ None) }
    ensures lint_finds_fault { command_of (map string_bytes words.now) ≡ Some (Lint linted.Script) → result ≡ 1
        → OfTaken (ends (S.left source.old) (S.left source.new) (S.faults source.old) (S.faults source.new))
        (λ bytes. (fault : ℕ × ℕ) × (first_fault bytes ≡ Some fault) × WroteAll (K.holds sink.old) (K.holds sink.new) (fault_line bytes fault.0 fault.1)) }

    // `reply` does what `run` does of the script whose tasks post their replies, and `nest` writes the log of a nest script.
    ensures replied { command_of (map string_bytes words.now) ≡ Some Reply → result ≡ 0
        → OfTaken (ends (S.left source.old) (S.left source.new) (S.faults source.old) (S.faults source.new))
        (λ bytes. HasReplied bytes (C.readings clock.old) (WroteAll (K.holds sink.old) (K.holds sink.new))) }
    ensures nested { command_of (map string_bytes words.now) ≡ Some Nest → result ≡ 0
        → OfTaken (ends (S.left source.old) (S.left source.new) (S.faults source.old) (S.faults source.new))
        (λ bytes. HasNested bytes (WroteAll (K.holds sink.old) (K.holds sink.new))) }

    // `gen` writes the script of its number and size, and `bench` what every run of that script adds up to.
    ensures generated { (number size : ℕ) (wide : Option Wide) → command_of (map string_bytes words.now) ≡ Some (Generate number size wide)
        → result ≡ 0 → WroteAll (K.holds sink.old) (K.holds sink.new) (canonical (made number size wide)) }
    ensures totals { (number size work : ℕ) → command_of (map string_bytes words.now) ≡ Some (Bench number size work) → result ≡ 0
        → WroteAll (K.holds sink.old) (K.holds sink.new) (summary_text (generated_totals number size)) }

    // Each status has its cause.
    ensures cause { HasCause (command_of (map string_bytes words.now)) (C.readings clock.old)
        (ends (S.left source.old) (S.left source.new) (S.faults source.old) (S.faults source.new))
        (ends (K.holds sink.old) (K.holds sink.new) (K.faults sink.old) (K.faults sink.new)) result }

    // Under any other status, and under 1 in `trace`, nothing is put to the sink; and what is no command, or reads nothing, takes
    // nothing from the source.
    ensures nothing_written { result ≢ 0 → ¬ IsVerdictOf (command_of (map string_bytes words.now)) result → result ≢ 5 → sink.new ≡ sink.old }
    ensures nothing_taken { (result ≡ 2) ⊎ (¬ TakesInput (command_of (map string_bytes words.now))) → source.new ≡ source.old }

    // The clock is as it was in each mode but `run` and `reply`, with `--step`, and where nothing is run; so it is wherever memory
    // runs out, but for that of JSON, which is made after the run.
    ensures clock_unread { ¬ ReadsClock (command_of (map string_bytes words.now)) → clock.new ≡ clock.old }
    ensures clock_kept { result ≢ 0 → result ≢ 5 → (result ≡ 6 → ¬ WritesJson (command_of (map string_bytes words.now))) → clock.new ≡ clock.old }

    // The notes get the note of the failure that ends the command with this status, where they do not fail, and else a front of
    // it. Under 3 that is what is wrong with the input, and under 1 in `trace` the line at which the log is found wrong; under 1
    // in `check`, `explain` and `lint` there is none, and so under 0.
    ensures quiet { (result ≡ 0) ⊎ IsVerdictOf (command_of (map string_bytes words.now)) result → notes.new ≡ notes.old }
    ensures note { result ≢ 0 → (failure : Failure) × IsEnd (command_of (map string_bytes words.now))
        (ends (S.left source.old) (S.left source.new) (S.faults source.old) (S.faults source.new)) result failure
        × (Rose (N.faults notes.old) (N.faults notes.new) ⊎ Gains (N.holds notes.old) (note_line failure) (N.holds notes.new)) }
    ensures note_front { result ≢ 0 → (failure : Failure) × IsEnd (command_of (map string_bytes words.now))
        (ends (S.left source.old) (S.left source.new) (S.faults source.old) (S.faults source.new)) result failure
        × WroteFront (N.holds notes.old) (N.holds notes.new) (note_line failure) }
{
    match execute(rt, alloc, words, source, sink, clock, gate) {
        Ok(()) => 0,
        Err(failure) => {
            tell(notes, &failure);
            failure.status()
        }
    }
}
