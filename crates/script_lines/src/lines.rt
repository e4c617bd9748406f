ghost use Rattle.std.specs.Prelude.{◌≡◌};
ghost use Rattle.script_lines.specs.Said.{workers_said, groups_said, threshold_said, runner_said, queue_said};
ghost use Rattle.script_model.specs.Reasons.{◌&◌};
ghost use Rattle.value_words.specs.Words.{priority_named, behaviour_named};
ghost use Rattle.script_model.specs.Places.{id_at, said_at, name_at, ends_at, may_block_at, kind_named};

use crate::command::Command;
use line_words::{Reason, Words, both};
use task_base::{
    Behaviour, MOST_WORKERS, MainQueue, Priority, Runner, RunnerId, RunnerKind, Traits,
};

/// `workers N`
#[tactic(auto, unfolding(crate::specs::Said::workers_said))]
pub(crate) fn workers(mut words: Words<'_>) -> Result<Command, Reason>
    ensures { result ≡ workers_said words.entry }
{
    let count = words.count(1, MOST_WORKERS);
    let (count, ()) = both(count, words.end())?;
    Ok(Command::Workers { count })
}

/// `groups F FB B`
#[tactic(auto, unfolding(crate::specs::Said::groups_said))]
pub(crate) fn groups(mut words: Words<'_>) -> Result<Command, Reason>
    ensures { result ≡ groups_said words.entry }
{
    let foreground = words.count(1, 64);
    let foreground_best = words.count(1, 64);
    let background = words.count(0, 64);
    let places = both(
        foreground,
        both(foreground_best, both(background, words.end())),
    );
    let (foreground, (foreground_best, (background, ()))) = places?;
    if foreground < foreground_best {
        return Err(Reason::OUT_OF_RANGE);
    }
    Ok(Command::Groups {
        foreground,
        foreground_best,
        background,
    })
}

/// `threshold U`
#[tactic(auto, unfolding(crate::specs::Said::threshold_said))]
pub(crate) fn threshold(mut words: Words<'_>) -> Result<Command, Reason>
    ensures { result ≡ threshold_said words.entry }
{
    let microseconds = words.time();
    let (microseconds, ()) = both(microseconds, words.end())?;
    Ok(Command::Threshold { microseconds })
}

/// `runner R KIND PRIORITY BEHAVIOUR`, with `mayblock` at the end or without it
#[tactic(auto, unfolding(crate::specs::Said::runner_said))]
pub(crate) fn runner(words: Words<'_>) -> Result<Command, Reason>
    ensures { result ≡ runner_said words.entry }
{
    let (number, (kind, (priority, (behaviour, (may_block, ()))))) = runner_places(words)?;
    let traits = Traits {
        priority,
        behaviour,
        may_block,
    };
    let runner = Runner { kind, traits };
    Ok(Command::Runner { number, runner })
}

type RunnerPlaces = (RunnerId, (RunnerKind, (Priority, (Behaviour, (bool, ())))));

fn runner_places(mut words: Words<'_>) -> Result<RunnerPlaces, Reason>
    ensures { result ≡ (id_at words.entry 0 & said_at kind_named words.entry 1 & name_at priority_named words.entry 2
        & name_at behaviour_named words.entry 3 & may_block_at words.entry 4 & ends_at words.entry 5) }
{
    let number = words.id();
    let kind = words.kind();
    let priority = words.priority();
    let behaviour = words.behaviour();
    let may_block = words.may_block();
    let traits = both(priority, both(behaviour, both(may_block, words.end())));
    both(number, both(kind, traits))
}

/// `queue Q CLASS VOTERS`
#[tactic(auto, unfolding(crate::specs::Said::queue_said))]
pub(crate) fn queue(mut words: Words<'_>) -> Result<Command, Reason>
    ensures { result ≡ queue_said words.entry }
{
    let number = words.id();
    let class = words.byte(7);
    let voters = words.byte(16);
    let (number, (class, (voters, ()))) = both(number, both(class, both(voters, words.end())))?;
    let queue = MainQueue { class, voters };
    Ok(Command::Queue { number, queue })
}
