//! What the numbers of a request name, and the numbers that name it in an answer.
ghost use Rattle.std.specs.Prelude.{◌≡◌};
ghost use Rattle.live_request.specs.Named.{fence_of, flag_of, policy_of, priority_of, scope_of, code_of_fence, code_of_flag, code_of_policy, code_of_priority, code_of_reply, code_of_scope};

use crate::codes;
use task_base::{FenceAt, JobReply, Policy, Priority, Scope};

/// The scope that a number names, if it names one.
pub fn scope_of(code: u32) -> Option<Scope>
    ensures { result ≡ scope_of code }
{
    match code {
        codes::MAY_BLOCK => Some(Scope::May),
        codes::WILL_BLOCK => Some(Scope::Will),
        _ => None,
    }
}

/// The policy that a number names, if it names one.
pub fn policy_of(code: u32) -> Option<Policy>
    ensures { result ≡ policy_of code }
{
    match code {
        codes::ALL => Some(Policy::All),
        codes::FOREGROUND => Some(Policy::Foreground),
        codes::NO_WORK => Some(Policy::Nothing),
        _ => None,
    }
}

/// The priority that a number names, if it names one.
pub fn priority_of(code: u32) -> Option<Priority>
    ensures { result ≡ priority_of code }
{
    match code {
        codes::BEST_EFFORT => Some(Priority::BestEffort),
        codes::USER_VISIBLE => Some(Priority::UserVisible),
        codes::USER_BLOCKING => Some(Priority::UserBlocking),
        _ => None,
    }
}

/// The fence that a number names, if it names one.
pub fn fence_of(code: u32) -> Option<FenceAt>
    ensures { result ≡ fence_of code }
{
    match code {
        codes::NOW => Some(FenceAt::Now),
        codes::START => Some(FenceAt::Start),
        _ => None,
    }
}

/// Whether a number says yes, if it says yes or no.
pub fn flag_of(code: u32) -> Option<bool>
    ensures { result ≡ flag_of code }
{
    match code {
        0 => Some(false),
        1 => Some(true),
        _ => None,
    }
}

/// The number of a scope.
pub fn code_of_scope(scope: Scope) -> u32
    ensures { result ≡ code_of_scope scope }
{
    match scope {
        Scope::May => codes::MAY_BLOCK,
        Scope::Will => codes::WILL_BLOCK,
    }
}

/// The number of a policy.
pub fn code_of_policy(policy: Policy) -> u32
    ensures { result ≡ code_of_policy policy }
{
    match policy {
        Policy::All => codes::ALL,
        Policy::Foreground => codes::FOREGROUND,
        Policy::Nothing => codes::NO_WORK,
    }
}

/// The number of a priority.
pub fn code_of_priority(priority: Priority) -> u32
    ensures { result ≡ code_of_priority priority }
{
    match priority {
        Priority::BestEffort => codes::BEST_EFFORT,
        Priority::UserVisible => codes::USER_VISIBLE,
        Priority::UserBlocking => codes::USER_BLOCKING,
    }
}

/// The number of a fence.
pub fn code_of_fence(at: FenceAt) -> u32
    ensures { result ≡ code_of_fence at }
{
    match at {
        FenceAt::Now => codes::NOW,
        FenceAt::Start => codes::START,
    }
}

/// The number of a job's reply.
pub fn code_of_reply(reply: JobReply) -> u32
    ensures { result ≡ code_of_reply reply }
{
    match reply {
        JobReply::Refused => codes::REFUSED,
        JobReply::Finished { .. } => codes::FINISHED,
        JobReply::Cancelled => codes::JOB_CANCELLED,
        JobReply::Stopped => codes::STOPPED,
    }
}

/// 1 for yes, and 0 for no.
pub fn code_of_flag(flag: bool) -> u32
    ensures { result ≡ code_of_flag flag }
{
    if flag { 1 } else { 0 }
}
