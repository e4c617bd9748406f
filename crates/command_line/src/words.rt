ghost use Rattle.std.specs.Prelude.{◌≡◌, ◌≢◌, ◌≤◌, false, None, map, string_bytes, IfOk, IfSome, option_map};
ghost use Rattle.clap.specs.Matches.{found_of, first_value};
ghost use Rattle.clap.specs.Simple.{app_of, with_rule};
ghost use Rattle.clap.specs.Values.{kind_of};
ghost use Rattle.clap.specs.Walk.{rule_of};
ghost use Rattle.command_line.specs.Options.{options_by, options_of, parts_by};
ghost use Rattle.command_line.specs.CommandLine.{IsInRange, arrange_by, arrange_with, bench_with, check_with, command_by, command_of, command_with};
ghost use Rattle.command_line.specs.CommandLine.{explain_with, flag_argument, generate_with, lint_with, mode_argument, mode_named, others_than, run_with};
ghost use Rattle.command_line.specs.CommandLine.{simulate_with, taskenv, trace_with, value_argument};
ghost use Rattle.command_line.specs.declared.options.TheConstants.{MOST_STEPS};

use crate::options::{
    Favour, Given, Shake, Wide, favour_given, is_bare, is_set, pace_given, seed_given, shake_given,
    size_given, step_given, steps_given, wide_given, work_given,
};
use clap::error::ErrorKind;
use clap::{Arg, ArgAction, ArgMatches};
use std::alloc::{AllocError, Global};

/// What the words of a command line ask for (this project's own).
#[derive(Clone, Copy, Debug, PartialEq, Eq)]
pub enum Command {
    /// Runs a script, and writes the log of the run.
    Run {
        /// How many microseconds each reading is after the one before it, in place of what the clock reads.
        step: Option<u64>,
        /// Whether the log is written as JSON, and not as text.
        json: bool,
        /// The pauses of the run, where it is shaken.
        shake: Option<Shake>,
    },
    /// Runs a script on one thread, whose seats take turns by a seed, and writes the log of the run.
    Simulate {
        /// The seed of the draws.
        seed: u64,
        /// Whom the draws favour.
        favour: Favour,
        /// How many microseconds each tick is after the one before it, where it does not jump to what is awaited.
        step: Option<u64>,
        /// Whether the log is written as JSON, and not as text.
        json: bool,
    },
    /// Judges the log after a script.
    Check {
        /// Whether the log may also end before the script is done.
        prefix: bool,
    },
    /// Judges the log of the open plan of the script before it.
    CheckOpen {
        /// Whether the log may also end where somebody is at work.
        prefix: bool,
    },
    /// Judges the log after a script, and says why it is illegal.
    Explain {
        /// Whether that is said in JSON, and not in words.
        json: bool,
        /// Whether the log may also end before the script is done.
        prefix: bool,
    },
    /// Judges the log of the open plan of the script before it, and says why it is illegal.
    ExplainOpen {
        /// Whether that is said in JSON, and not in words.
        json: bool,
        /// Whether the log may also end where somebody is at work.
        prefix: bool,
    },
    /// Looks for an order of what each seat saw of a run of a script, and writes the log that it makes.
    Arrange {
        /// Whether the log may also end before the script is done.
        prefix: bool,
        /// How many steps the search takes at most: 1 to 1,000,000,000,000.
        most: u64,
    },
    /// The same of what each seat saw of an environment of the open plan of a script.
    ArrangeOpen {
        /// Whether the log may also end where somebody is at work.
        prefix: bool,
        /// How many steps the search takes at most: 1 to 1,000,000,000,000.
        most: u64,
    },
    /// Runs a script whose tasks post the replies after it, and writes the log of the run.
    Reply,
    /// Writes the trace of the log after a script.
    Trace {
        /// Whether the trace says all that the log and the script tell.
        full: bool,
        /// Whether the log may also end before the script is done.
        prefix: bool,
    },
    /// Writes the trace of the log of the open plan of the script before it.
    TraceOpen {
        /// Whether the trace says all that the log and the script tell.
        full: bool,
        /// Whether the log may also end where somebody is at work.
        prefix: bool,
    },
    /// Runs a nest script, and writes its log.
    Nest,
    /// Says why an input is none.
    Lint {
        /// Which input it is to be.
        input: Linted,
    },
    /// Writes the script that is made from a number.
    Generate {
        /// The number that it is made from.
        number: u64,
        /// How many tasks it has: 1 to 8,192.
        size: u32,
        /// What it has besides, where it is a wide one.
        wide: Option<Wide>,
    },
    /// Runs the script that is made from a number, and writes what its log adds up to.
    Bench {
        /// The number that it is made from.
        number: u64,
        /// How many tasks it has: 1 to 8,192.
        size: u32,
        /// How many nanoseconds each task of the pool works: 0 to 1,000,000,000.
        work: u64,
    },
}

/// An input of which is said why it is none (this project's own).
#[derive(Clone, Copy, Debug, PartialEq, Eq)]
pub enum Linted {
    /// A script.
    Script,
    /// A script, and replies after it.
    Replies,
    /// A nest script.
    Nest,
}

/// The word that says what to do (this project's own).
#[derive(Clone, Copy)]
enum Mode {
    Run,
    Simulate,
    Check,
    Explain,
    Arrange,
    Reply,
    Trace,
    Nest,
    Lint,
    Generate,
    Bench,
}

/// The command that the words are, if they are one. The error is out of memory.
pub fn command_of(alloc: Global, words: &[String]) -> Result<Option<Command>, AllocError>
    ensures command { IfOk result (λ command. command ≡ command_of (map string_bytes words.now)) }
    ensures in_range { IfOk result (λ command. IfSome command IsInRange) }
{
    let matches = match taskenv(alloc)?.try_get_matches_from(words) {
        Ok(matches) => matches,
        Err(error) => return refusal(&error),
    };
    Ok(command_by(matches.get_str("MODE"), given_in(&matches)))
}

/// What is answered where clap refuses the words: that they are no command, or out of memory.
fn refusal(error: &clap::Error) -> Result<Option<Command>, AllocError>
    ensures { IfOk result (λ command. (command ≡ None) × (kind_of error.now ≢ ErrorKind.OutOfMemory)) }
{
    match error.kind() {
        ErrorKind::OutOfMemory => Err(AllocError),
        _ => Ok(None),
    }
}

/// The options that clap found among the words.
fn given_in<'a>(matches: &ArgMatches<'a>) -> Given<'a>
    ensures { options_of result ≡ options_by (first_value (found_of matches.now)) }
{
    Given {
        step: matches.get_str("step"),
        json: is_set(matches.get_str("json")),
        prefix: is_set(matches.get_str("prefix")),
        number: matches.get_str("number"),
        size: matches.get_str("size"),
        replies: is_set(matches.get_str("replies")),
        nest: is_set(matches.get_str("nest")),
        full: is_set(matches.get_str("full")),
        seed: matches.get_str("seed"),
        favour: matches.get_str("favour"),
        jump: is_set(matches.get_str("jump")),
        shake: matches.get_str("shake"),
        work: matches.get_str("work"),
        wide: is_set(matches.get_str("wide")),
        parts: parts_in(matches),
        most: matches.get_str("most"),
        is_open: is_set(matches.get_str("open")),
    }
}

/// What a wide script is to have: what no flag among the words leaves out.
fn parts_in(matches: &ArgMatches<'_>) -> Wide
    ensures { result ≡ parts_by (first_value (found_of matches.now)) }
{
    Wide {
        jobs: !is_set(matches.get_str("no-jobs")),
        main: !is_set(matches.get_str("no-main")),
        delays: !is_set(matches.get_str("no-delays")),
        scopes: !is_set(matches.get_str("no-scopes")),
        shutdown: !is_set(matches.get_str("no-shutdown")),
    }
}

/// The command `taskenv MODE [--step N] [--json] [--prefix] [--number N] [--size N] [--replies] [--nest] [--full] [--seed N]
/// [--favour WORD] [--jump] [--shake N] [--work N] [--wide] [--no-jobs] [--no-main] [--no-delays] [--no-scopes] [--no-shutdown]
/// [--most N] [--open]`.
fn taskenv<'a>(alloc: Global) -> Result<clap::Command<'a>, AllocError>
    ensures { IfOk result (λ command. app_of command ≡ taskenv) }
{
    let command = with_argument(clap::Command::new(alloc, "taskenv"), mode_argument(alloc))?;
    let command = with_argument(command, value_argument(alloc, "step"))?;
    let command = with_argument(command, flag_argument(alloc, "json"))?;
    let command = with_argument(command, flag_argument(alloc, "prefix"))?;
    let command = with_argument(command, value_argument(alloc, "number"))?;
    let command = with_argument(command, value_argument(alloc, "size"))?;
    let command = with_argument(command, flag_argument(alloc, "replies"))?;
    let command = with_argument(command, flag_argument(alloc, "nest"))?;
    let command = with_argument(command, flag_argument(alloc, "full"))?;
    let command = with_argument(command, value_argument(alloc, "seed"))?;
    let command = with_argument(command, value_argument(alloc, "favour"))?;
    let command = with_argument(command, flag_argument(alloc, "jump"))?;
    let command = with_argument(command, value_argument(alloc, "shake"))?;
    let command = with_argument(command, value_argument(alloc, "work"))?;
    let command = with_argument(command, flag_argument(alloc, "wide"))?;
    let command = with_argument(command, flag_argument(alloc, "no-jobs"))?;
    let command = with_argument(command, flag_argument(alloc, "no-main"))?;
    let command = with_argument(command, flag_argument(alloc, "no-delays"))?;
    let command = with_argument(command, flag_argument(alloc, "no-scopes"))?;
    let command = with_argument(command, flag_argument(alloc, "no-shutdown"))?;
    let command = with_argument(command, value_argument(alloc, "most"))?;
    with_argument(command, flag_argument(alloc, "open"))
}

/// The command with one argument more.
fn with_argument<'a>(
    command: clap::Command<'a>,
    argument: Arg<'a>,
) -> Result<clap::Command<'a>, AllocError>
    requires { argument.global ≡ false }
    ensures { IfOk result (λ more. app_of more ≡ with_rule (app_of command.entry) (rule_of argument.entry)) }
{
    command.arg(argument)
}

/// The word that says what to do.
fn mode_argument<'a>(alloc: Global) -> Arg<'a>
    ensures rule { rule_of result ≡ mode_argument }
    ensures local { result.global ≡ false }
{
    Arg::new(alloc, "MODE").required(true)
}

/// An option of this name, with a value.
fn value_argument<'a>(alloc: Global, name: &'a str) -> Arg<'a>
    ensures rule { rule_of result ≡ value_argument name.entry.now }
    ensures local { result.global ≡ false }
{
    Arg::new(alloc, name).long(name)
}

/// A flag of this name.
fn flag_argument<'a>(alloc: Global, name: &'a str) -> Arg<'a>
    ensures rule { rule_of result ≡ flag_argument name.entry.now }
    ensures local { result.global ≡ false }
{
    Arg::new(alloc, name).long(name).action(ArgAction::SetTrue)
}

/// The command of the mode that the word names with these options, if each is right.
fn command_by(mode: Option<&str>, given: Given<'_>) -> Option<Command>
    ensures command { result ≡ command_by (option_map (λ s. s.now) mode.entry) (options_of given.entry) }
    ensures in_range { IfSome result IsInRange }
{
    let mode = mode_named(mode?)?;
    if is_bare(others_than(mode, given)) {
        command_with(mode, given)
    } else {
        None
    }
}

fn mode_named(word: &str) -> Option<Mode>
    ensures { result ≡ mode_named word.now }
{
    match word {
        "run" => Some(Mode::Run),
        "simulate" => Some(Mode::Simulate),
        "check" => Some(Mode::Check),
        "explain" => Some(Mode::Explain),
        "arrange" => Some(Mode::Arrange),
        "reply" => Some(Mode::Reply),
        "trace" => Some(Mode::Trace),
        "nest" => Some(Mode::Nest),
        "lint" => Some(Mode::Lint),
        "gen" => Some(Mode::Generate),
        "bench" => Some(Mode::Bench),
        _ => None,
    }
}

/// The options that the mode does not take.
fn others_than<'a>(mode: Mode, given: Given<'a>) -> Given<'a>
    ensures { options_of result ≡ others_than mode (options_of given.entry) }
{
    match mode {
        Mode::Run => Given {
            step: None,
            json: false,
            shake: None,
            seed: None,
            ..given
        },
        Mode::Simulate => Given {
            seed: None,
            favour: None,
            step: None,
            jump: false,
            json: false,
            ..given
        },
        Mode::Check => Given {
            is_open: false,
            prefix: false,
            ..given
        },
        Mode::Explain => Given {
            is_open: false,
            json: false,
            prefix: false,
            ..given
        },
        Mode::Arrange => Given {
            is_open: false,
            prefix: false,
            most: None,
            ..given
        },
        Mode::Reply | Mode::Nest => given,
        Mode::Trace => Given {
            is_open: false,
            full: false,
            prefix: false,
            ..given
        },
        Mode::Lint => Given {
            replies: false,
            nest: false,
            ..given
        },
        Mode::Generate => Given {
            number: None,
            size: None,
            wide: false,
            parts: Wide {
                jobs: true,
                main: true,
                delays: true,
                scopes: true,
                shutdown: true,
            },
            ..given
        },
        Mode::Bench => Given {
            number: None,
            size: None,
            work: None,
            ..given
        },
    }
}

/// The command of the mode with those options that it takes, if each is right.
fn command_with(mode: Mode, given: Given<'_>) -> Option<Command>
    ensures command { result ≡ command_with mode (options_of given.entry) }
    ensures in_range { IfSome result IsInRange }
{
    match mode {
        Mode::Run => run_with(given),
        Mode::Simulate => simulate_with(given),
        Mode::Check => Some(check_with(given.is_open, given.prefix)),
        Mode::Explain => Some(explain_with(given.is_open, given.json, given.prefix)),
        Mode::Arrange => arrange_with(given),
        Mode::Reply => Some(Command::Reply),
        Mode::Trace => Some(trace_with(given.is_open, given.full, given.prefix)),
        Mode::Nest => Some(Command::Nest),
        Mode::Lint => lint_with(given.replies, given.nest),
        Mode::Generate => generate_with(given),
        Mode::Bench => bench_with(given),
    }
}

/// The command of the mode `run`.
fn run_with(given: Given<'_>) -> Option<Command>
    ensures command { result ≡ run_with (options_of given.entry) }
    ensures in_range { IfSome result IsInRange }
{
    Some(Command::Run {
        step: step_given(given.step)?,
        json: given.json,
        shake: shake_given(given.shake, given.seed)?,
    })
}

/// The command of the mode `simulate`.
fn simulate_with(given: Given<'_>) -> Option<Command>
    ensures command { result ≡ simulate_with (options_of given.entry) }
    ensures in_range { IfSome result IsInRange }
{
    Some(Command::Simulate {
        seed: seed_given(given.seed)?,
        favour: favour_given(given.favour)?,
        step: pace_given(given.step, given.jump)?,
        json: given.json,
    })
}

/// The command of the mode `check`.
fn check_with(is_open: bool, prefix: bool) -> Command
    ensures command { result ≡ check_with is_open prefix }
    ensures in_range { IsInRange result }
{
    if is_open {
        Command::CheckOpen { prefix }
    } else {
        Command::Check { prefix }
    }
}

/// The command of the mode `explain`.
fn explain_with(is_open: bool, json: bool, prefix: bool) -> Command
    ensures command { result ≡ explain_with is_open json prefix }
    ensures in_range { IsInRange result }
{
    if is_open {
        Command::ExplainOpen { json, prefix }
    } else {
        Command::Explain { json, prefix }
    }
}

/// The command of the mode `arrange`.
fn arrange_with(given: Given<'_>) -> Option<Command>
    ensures command { result ≡ arrange_with (options_of given.entry) }
    ensures in_range { IfSome result IsInRange }
{
    let most = steps_given(given.most)?;
    Some(arrange_by(given.is_open, given.prefix, most))
}

/// The command of the mode `arrange`, with that many steps.
fn arrange_by(is_open: bool, prefix: bool, most: u64) -> Command
    requires { (1 ≤ most) × (most ≤ MOST_STEPS) }
    ensures command { result ≡ arrange_by is_open prefix most }
    ensures in_range { IsInRange result }
{
    if is_open {
        Command::ArrangeOpen { prefix, most }
    } else {
        Command::Arrange { prefix, most }
    }
}

/// The command of the mode `trace`.
fn trace_with(is_open: bool, full: bool, prefix: bool) -> Command
    ensures command { result ≡ trace_with is_open full prefix }
    ensures in_range { IsInRange result }
{
    if is_open {
        Command::TraceOpen { full, prefix }
    } else {
        Command::Trace { full, prefix }
    }
}

/// The command of the mode `lint`.
fn lint_with(replies: bool, nest: bool) -> Option<Command>
    ensures command { result ≡ lint_with replies nest }
    ensures in_range { IfSome result IsInRange }
{
    let input = match (replies, nest) {
        (false, false) => Linted::Script,
        (true, false) => Linted::Replies,
        (false, true) => Linted::Nest,
        (true, true) => return None,
    };
    Some(Command::Lint { input })
}

/// The command of the mode `gen`.
fn generate_with(given: Given<'_>) -> Option<Command>
    ensures command { result ≡ generate_with (options_of given.entry) }
    ensures in_range { IfSome result IsInRange }
{
    Some(Command::Generate {
        number: seed_given(given.number)?,
        size: size_given(given.size)?,
        wide: wide_given(given.wide, given.parts)?,
    })
}

/// The command of the mode `bench`.
fn bench_with(given: Given<'_>) -> Option<Command>
    ensures command { result ≡ bench_with (options_of given.entry) }
    ensures in_range { IfSome result IsInRange }
{
    Some(Command::Bench {
        number: seed_given(given.number)?,
        size: size_given(given.size)?,
        work: work_given(given.work)?,
    })
}
