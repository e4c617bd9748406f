//! What an answer tells of an entry, field by field.
ghost use Rattle.std.specs.Prelude.{◌≡◌};
ghost use Rattle.live_request.specs.Told.{id_told, item_told, kind_told, next_told, ok_told, place_told, sum_told, task_told, value_told, word_told};

use crate::codes;
use crate::named::{
    code_of_fence, code_of_flag, code_of_policy, code_of_priority, code_of_reply, code_of_scope,
};
use task_base::{JobReply, Kind};

/// The number of its kind.
pub fn kind_told(kind: Kind) -> u32
    ensures { result ≡ kind_told kind }
{
    match kind {
        Kind::Post { .. } => codes::DID_POST,
        Kind::Main { .. } => codes::DID_MAIN,
        Kind::Tick { .. } => codes::DID_TICK,
        Kind::Take { .. } => codes::DID_TAKE,
        Kind::End { .. } => codes::DID_END,
        Kind::Enter { .. } => codes::DID_ENTER,
        Kind::Leave { .. } => codes::DID_LEAVE,
        Kind::Policy { .. } => codes::DID_POLICY,
        Kind::Reprio { .. } => codes::DID_REPRIO,
        Kind::Fence { .. } => codes::DID_FENCE,
        Kind::Unfence { .. } => codes::DID_UNFENCE,
        Kind::Vote { .. } => codes::DID_VOTE,
        Kind::Rank { .. } => codes::DID_RANK,
        Kind::Close { .. } => codes::DID_CLOSE,
        Kind::MainTake { .. } => codes::DID_MAIN_TAKE,
        Kind::MainEnd { .. } => codes::DID_MAIN_END,
        Kind::MainNone => codes::DID_MAIN_NONE,
        Kind::JobPost { .. } => codes::DID_JOB_POST,
        Kind::JobTake { .. } => codes::DID_JOB_TAKE,
        Kind::JobStep { .. } => codes::DID_JOB_STEP,
        Kind::JobCancel { .. } => codes::DID_JOB_CANCEL,
        Kind::Cancelled { .. } => codes::DID_CANCELLED,
        Kind::Joined { .. } => codes::DID_JOINED,
        Kind::Idle => codes::DID_IDLE,
        Kind::Shutdown => codes::DID_SHUTDOWN,
        Kind::Done => codes::DID_DONE,
    }
}

/// Its task, where it has one.
pub fn task_told(kind: Kind) -> u32
    ensures { result ≡ task_told kind }
{
    match kind {
        Kind::Post { task, .. }
        | Kind::Main { task, .. }
        | Kind::Take { task, .. }
        | Kind::End { task, .. }
        | Kind::Enter { task, .. }
        | Kind::Leave { task }
        | Kind::MainTake { task, .. }
        | Kind::MainEnd { task, .. } => task,
        _ => codes::NO_TASK,
    }
}

/// Its runner, queue or job.
pub fn place_told(kind: Kind) -> u32
    ensures { result ≡ place_told kind }
{
    match kind {
        Kind::Post { runner, .. } | Kind::Take { runner, .. } | Kind::Reprio { runner, .. } => {
            runner
        }
        Kind::Main { queue, .. }
        | Kind::Fence { queue, .. }
        | Kind::Unfence { queue }
        | Kind::Vote { queue, .. }
        | Kind::Rank { queue, .. }
        | Kind::Close { queue }
        | Kind::MainTake { queue, .. } => queue,
        Kind::JobPost { job, .. }
        | Kind::JobTake { job, .. }
        | Kind::JobStep { job, .. }
        | Kind::JobCancel { job }
        | Kind::Cancelled { job }
        | Kind::Joined { job, .. } => job,
        _ => 0,
    }
}

/// The number that the seat has inside the job.
pub fn id_told(kind: Kind) -> u32
    ensures { result ≡ id_told kind }
{
    match kind {
        Kind::JobTake { id, .. } | Kind::JobStep { id, .. } => id,
        _ => 0,
    }
}

/// The item of the job.
pub fn item_told(kind: Kind) -> u32
    ensures { result ≡ item_told kind }
{
    match kind {
        Kind::JobTake { item, .. } | Kind::JobStep { item, .. } => item,
        _ => 0,
    }
}

/// The next item, where the seat goes on.
pub fn next_told(kind: Kind) -> u32
    ensures { result ≡ next_told kind }
{
    match kind {
        Kind::JobStep { next, .. } => next.unwrap_or(0),
        _ => 0,
    }
}

/// Its scope, policy, priority, fence or reply, or the number of its voter or class.
pub fn word_told(kind: Kind) -> u32
    ensures { result ≡ word_told kind }
{
    match kind {
        Kind::Enter { scope, .. } => code_of_scope(scope),
        Kind::Policy { policy } => code_of_policy(policy),
        Kind::Reprio { priority, .. } => code_of_priority(priority),
        Kind::Fence { at, .. } => code_of_fence(at),
        Kind::Vote { voter, .. } => u32::from(voter),
        Kind::Rank { class, .. } => u32::from(class),
        Kind::Joined { reply, .. } => code_of_reply(reply),
        _ => 0,
    }
}

/// Whether a post is accepted, a vote is on, a seat goes on.
pub fn ok_told(kind: Kind) -> u32
    ensures { result ≡ ok_told kind }
{
    match kind {
        Kind::Post { ok, .. } | Kind::Main { ok, .. } | Kind::JobPost { ok, .. } => {
            code_of_flag(ok)
        }
        Kind::Vote { on, .. } => code_of_flag(on),
        Kind::JobStep { next, .. } => code_of_flag(next.is_some()),
        _ => 0,
    }
}

/// The sum of a reply.
fn sum_told(reply: JobReply) -> u64
    ensures { result ≡ sum_told reply }
{
    match reply {
        JobReply::Finished { sum } => sum,
        _ => 0,
    }
}

/// Its delay, moment, value or sum.
pub fn value_told(kind: Kind) -> u64
    ensures { result ≡ value_told kind }
{
    match kind {
        Kind::Post { delay, .. } | Kind::Main { delay, .. } => delay,
        Kind::Tick { now } => now,
        Kind::Take { found, .. } | Kind::MainTake { found, .. } => found,
        Kind::End { left, .. } | Kind::MainEnd { left, .. } => left,
        Kind::JobStep { value, .. } => value,
        Kind::Joined { reply, .. } => sum_told(reply),
        _ => 0,
    }
}
