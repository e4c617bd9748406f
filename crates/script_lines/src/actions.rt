ghost use Rattle.std.specs.Prelude.{◌≡◌};
ghost use Rattle.task_base.specs.declared.script.Action.TheVariants as actions;
ghost use Rattle.script_lines.specs.Said.{post_said, main_said, number_said, id_said, bare_said, policy_said, reprio_said, fence_said, vote_said, rank_said};

use crate::command::Command;
use line_words::{Reason, Words, both, read_posting};
use task_base::Action;

/// `post T R D`
#[tactic(auto, unfolding(crate::specs::Said::post_said))]
pub(crate) fn post(words: Words<'_>) -> Result<Command, Reason>
    ensures { result ≡ post_said words.entry }
{
    let (task, (runner, (delay, ()))) = read_posting(words)?;
    let action = Action::Post {
        task,
        runner,
        delay,
    };
    Ok(Command::Act { action })
}

/// `main T Q D`
#[tactic(auto, unfolding(crate::specs::Said::main_said))]
pub(crate) fn main_task(words: Words<'_>) -> Result<Command, Reason>
    ensures { result ≡ main_said words.entry }
{
    let (task, (queue, (delay, ()))) = read_posting(words)?;
    let action = Action::Main { task, queue, delay };
    Ok(Command::Act { action })
}

/// `tick N`
pub(crate) fn tick(mut words: Words<'_>) -> Result<Command, Reason>
    ensures { result ≡ number_said actions.Tick 1 65536 words.entry }
{
    let count = words.count(1, 65_536);
    let (count, ()) = both(count, words.end())?;
    let action = Action::Tick { count };
    Ok(Command::Act { action })
}

/// `policy all`, `policy foreground`, `policy none`
#[tactic(auto, unfolding(crate::specs::Said::policy_said))]
pub(crate) fn policy(mut words: Words<'_>) -> Result<Command, Reason>
    ensures { result ≡ policy_said words.entry }
{
    let policy = words.policy();
    let (policy, ()) = both(policy, words.end())?;
    let action = Action::Policy { policy };
    Ok(Command::Act { action })
}

/// `reprio R PRIORITY`
#[tactic(auto, unfolding(crate::specs::Said::reprio_said))]
pub(crate) fn reprio(mut words: Words<'_>) -> Result<Command, Reason>
    ensures { result ≡ reprio_said words.entry }
{
    let runner = words.id();
    let priority = words.priority();
    let (runner, (priority, ())) = both(runner, both(priority, words.end()))?;
    let action = Action::Reprio { runner, priority };
    Ok(Command::Act { action })
}

/// `fence Q now`, `fence Q start`
#[tactic(auto, unfolding(crate::specs::Said::fence_said))]
pub(crate) fn fence(mut words: Words<'_>) -> Result<Command, Reason>
    ensures { result ≡ fence_said words.entry }
{
    let queue = words.id();
    let at = words.fence();
    let (queue, (at, ())) = both(queue, both(at, words.end()))?;
    let action = Action::Fence { queue, at };
    Ok(Command::Act { action })
}

/// `unfence Q`
pub(crate) fn unfence(mut words: Words<'_>) -> Result<Command, Reason>
    ensures { result ≡ id_said actions.Unfence words.entry }
{
    let queue = words.id();
    let (queue, ()) = both(queue, words.end())?;
    let action = Action::Unfence { queue };
    Ok(Command::Act { action })
}

/// `vote Q V on`, `vote Q V off`
#[tactic(auto, unfolding(crate::specs::Said::vote_said))]
pub(crate) fn vote(mut words: Words<'_>) -> Result<Command, Reason>
    ensures { result ≡ vote_said words.entry }
{
    let queue = words.id();
    let voter = words.byte(u8::MAX);
    let on = words.vote();
    let (queue, (voter, (on, ()))) = both(queue, both(voter, both(on, words.end())))?;
    let action = Action::Vote { queue, voter, on };
    Ok(Command::Act { action })
}

/// `rank Q CLASS`
#[tactic(auto, unfolding(crate::specs::Said::rank_said))]
pub(crate) fn rank(mut words: Words<'_>) -> Result<Command, Reason>
    ensures { result ≡ rank_said words.entry }
{
    let queue = words.id();
    let class = words.byte(7);
    let (queue, (class, ())) = both(queue, both(class, words.end()))?;
    let action = Action::Rank { queue, class };
    Ok(Command::Act { action })
}

/// `close Q`
pub(crate) fn close(mut words: Words<'_>) -> Result<Command, Reason>
    ensures { result ≡ id_said actions.Close words.entry }
{
    let queue = words.id();
    let (queue, ()) = both(queue, words.end())?;
    let action = Action::Close { queue };
    Ok(Command::Act { action })
}

/// `pump N`
pub(crate) fn pump(mut words: Words<'_>) -> Result<Command, Reason>
    ensures { result ≡ number_said actions.Pump 1 16384 words.entry }
{
    let count = words.count(1, 16_384);
    let (count, ()) = both(count, words.end())?;
    let action = Action::Pump { count };
    Ok(Command::Act { action })
}

/// `flush`
pub(crate) fn flush(words: Words<'_>) -> Result<Command, Reason>
    ensures { result ≡ bare_said actions.Flush words.entry }
{
    words.end()?;
    let action = Action::Flush;
    Ok(Command::Act { action })
}

/// `startjob J`
pub(crate) fn start_job(mut words: Words<'_>) -> Result<Command, Reason>
    ensures { result ≡ id_said actions.StartJob words.entry }
{
    let job = words.id();
    let (job, ()) = both(job, words.end())?;
    let action = Action::StartJob { job };
    Ok(Command::Act { action })
}

/// `join J`
pub(crate) fn join(mut words: Words<'_>) -> Result<Command, Reason>
    ensures { result ≡ id_said actions.Join words.entry }
{
    let job = words.id();
    let (job, ()) = both(job, words.end())?;
    let action = Action::Join { job };
    Ok(Command::Act { action })
}

/// `cancel J`
pub(crate) fn cancel(mut words: Words<'_>) -> Result<Command, Reason>
    ensures { result ≡ id_said actions.Cancel words.entry }
{
    let job = words.id();
    let (job, ()) = both(job, words.end())?;
    let action = Action::Cancel { job };
    Ok(Command::Act { action })
}

/// `shutdown`
pub(crate) fn shutdown(words: Words<'_>) -> Result<Command, Reason>
    ensures { result ≡ bare_said actions.Shutdown words.entry }
{
    words.end()?;
    let action = Action::Shutdown;
    Ok(Command::Act { action })
}
