ghost use Rattle.std.specs.Prelude.{◌≡◌, option_copied};
ghost use Rattle.line_places.specs.Tables.{script_acts, script_acts_on, script_places, reply_places, nest_places, places_of, script_steps, nest_steps, step_places};

use crate::expected::{Expected, Language, Thing};
use task_base::{MOST_MICROSECONDS, MOST_WORKERS};

const RUNNER: Expected = Expected::Id { of: Thing::Runner };

const QUEUE: Expected = Expected::Id { of: Thing::Queue };

const TASK: Expected = Expected::Id { of: Thing::Task };

const JOB: Expected = Expected::Id { of: Thing::Job };

const TIME: Expected = Expected::Number {
    low: 0,
    high: MOST_MICROSECONDS,
};

const VALUE: Expected = Expected::Number {
    low: 0,
    high: u64::MAX,
};

const NUMBER: Expected = Expected::Number {
    low: 0,
    high: u32::MAX as u64,
};

const BOUND: Expected = Expected::Number {
    low: 1,
    high: 16_384,
};

/// The places of a script's actions on main queues and the clock.
#[tactic(auto, unfolding(crate::specs::Tables::script_acts_on))]
fn script_acts_on(command: &[u8]) -> Option<&'static [Expected]>
    ensures { option_copied result ≡ script_acts_on command.now }
{
    if command == b"tick".as_slice() {
        Some(&[
            Expected::Number {
                low: 1,
                high: 65_536,
            },
            Expected::End,
        ])
    } else if command == b"fence".as_slice() {
        Some(&[QUEUE, Expected::Fence, Expected::End])
    } else if command == b"unfence".as_slice() {
        Some(&[QUEUE, Expected::End])
    } else if command == b"vote".as_slice() {
        Some(&[
            QUEUE,
            Expected::Number { low: 0, high: 255 },
            Expected::Vote,
            Expected::End,
        ])
    } else if command == b"rank".as_slice() {
        Some(&[QUEUE, Expected::Number { low: 0, high: 7 }, Expected::End])
    } else if command == b"close".as_slice() {
        Some(&[QUEUE, Expected::End])
    } else if command == b"pump".as_slice() {
        Some(&[
            Expected::Number {
                low: 1,
                high: 16_384,
            },
            Expected::End,
        ])
    } else {
        None
    }
}

/// The places of a script's actions on tasks, jobs, runners and the pool.
#[tactic(auto, unfolding(crate::specs::Tables::script_acts))]
fn script_acts(command: &[u8]) -> Option<&'static [Expected]>
    ensures { option_copied result ≡ script_acts command.now }
{
    if command == b"post".as_slice() {
        Some(&[TASK, RUNNER, TIME, Expected::End])
    } else if command == b"main".as_slice() {
        Some(&[TASK, QUEUE, TIME, Expected::End])
    } else if command == b"policy".as_slice() {
        Some(&[Expected::Policy, Expected::End])
    } else if command == b"reprio".as_slice() {
        Some(&[RUNNER, Expected::Priority, Expected::End])
    } else if command == b"flush".as_slice() {
        Some(&[Expected::End])
    } else if command == b"startjob".as_slice() {
        Some(&[JOB, Expected::End])
    } else if command == b"join".as_slice() {
        Some(&[JOB, Expected::End])
    } else if command == b"cancel".as_slice() {
        Some(&[JOB, Expected::End])
    } else if command == b"shutdown".as_slice() {
        Some(&[Expected::End])
    } else {
        script_acts_on(command)
    }
}

/// The places of a line of a script.
#[tactic(auto, unfolding(crate::specs::Tables::script_places))]
fn script_places(command: &[u8]) -> Option<&'static [Expected]>
    ensures { option_copied result ≡ script_places command.now }
{
    if command == b"workers".as_slice() {
        Some(&[
            Expected::Number {
                low: 1,
                high: MOST_WORKERS as u64,
            },
            Expected::End,
        ])
    } else if command == b"groups".as_slice() {
        Some(&[
            Expected::Number { low: 1, high: 64 },
            Expected::Number { low: 1, high: 64 },
            Expected::Number { low: 0, high: 64 },
            Expected::End,
        ])
    } else if command == b"threshold".as_slice() {
        Some(&[TIME, Expected::End])
    } else if command == b"runner".as_slice() {
        Some(&[
            RUNNER,
            Expected::Kind,
            Expected::Priority,
            Expected::Behaviour,
            Expected::MayBlock,
            Expected::End,
        ])
    } else if command == b"queue".as_slice() {
        Some(&[
            QUEUE,
            Expected::Number { low: 0, high: 7 },
            Expected::Number { low: 0, high: 16 },
            Expected::End,
        ])
    } else if command == b"task".as_slice() {
        Some(&[TASK, Expected::Steps])
    } else if command == b"job".as_slice() {
        Some(&[
            JOB,
            Expected::Priority,
            Expected::Behaviour,
            Expected::Number {
                low: 0,
                high: 65_536,
            },
            Expected::Number { low: 1, high: 64 },
            Expected::Steps,
        ])
    } else {
        script_acts(command)
    }
}

/// The places of a line that says a reply.
#[tactic(auto, unfolding(crate::specs::Tables::reply_places))]
fn reply_places(command: &[u8]) -> Option<&'static [Expected]>
    ensures { option_copied result ≡ reply_places command.now }
{
    if command == b"reply".as_slice() {
        Some(&[TASK, TASK, Expected::Home, NUMBER, Expected::End])
    } else {
        None
    }
}

/// The places of a line of a nest script.
#[tactic(auto, unfolding(crate::specs::Tables::nest_places))]
fn nest_places(command: &[u8]) -> Option<&'static [Expected]>
    ensures { option_copied result ≡ nest_places command.now }
{
    if command == b"queue".as_slice() {
        Some(&[QUEUE, Expected::Number { low: 0, high: 7 }, Expected::End])
    } else if command == b"task".as_slice() {
        Some(&[TASK, Expected::Nestable, Expected::Steps])
    } else if command == b"post".as_slice() {
        Some(&[TASK, QUEUE, Expected::End])
    } else if command == b"run".as_slice() {
        Some(&[BOUND, Expected::End])
    } else {
        None
    }
}

/// What the places of a line take behind its command, if the language has that command.
pub fn places_of(language: Language, command: &[u8]) -> Option<&'static [Expected]>
    ensures { option_copied result ≡ places_of language command.now }
{
    match language {
        Language::Script => script_places(command),
        Language::Replies => reply_places(command),
        Language::Nest => nest_places(command),
    }
}

/// The places of a step of a script.
#[tactic(auto, unfolding(crate::specs::Tables::script_steps))]
fn script_steps(name: &[u8]) -> Option<&'static [Expected]>
    ensures { option_copied result ≡ script_steps name.now }
{
    if name == b"add".as_slice() {
        Some(&[VALUE, Expected::End])
    } else if name == b"mul".as_slice() {
        Some(&[VALUE, Expected::End])
    } else if name == b"set".as_slice() {
        Some(&[VALUE, Expected::End])
    } else if name == b"post".as_slice() {
        Some(&[TASK, RUNNER, TIME, Expected::End])
    } else if name == b"main".as_slice() {
        Some(&[TASK, QUEUE, TIME, Expected::End])
    } else if name == b"block".as_slice() {
        Some(&[Expected::Scope, Expected::End])
    } else if name == b"unblock".as_slice() {
        Some(&[Expected::End])
    } else {
        None
    }
}

/// The places of a step of a nest script.
#[tactic(auto, unfolding(crate::specs::Tables::nest_steps))]
fn nest_steps(name: &[u8]) -> Option<&'static [Expected]>
    ensures { option_copied result ≡ nest_steps name.now }
{
    if name == b"say".as_slice() {
        Some(&[VALUE, Expected::End])
    } else if name == b"post".as_slice() {
        Some(&[TASK, QUEUE, Expected::End])
    } else if name == b"loop".as_slice() {
        Some(&[BOUND, Expected::End])
    } else {
        None
    }
}

/// What the places of a step take behind its name, if the language has that step.
pub fn step_places(language: Language, name: &[u8]) -> Option<&'static [Expected]>
    ensures { option_copied result ≡ step_places language name.now }
{
    match language {
        Language::Script => script_steps(name),
        Language::Replies => None,
        Language::Nest => nest_steps(name),
    }
}
