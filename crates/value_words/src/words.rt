ghost use Rattle.std.specs.Prelude.{◌≡◌, ◌≤◌, length, IfSome};
ghost use Rattle.value_words.specs.Words.{priority_word, behaviour_word, policy_word, fence_word, scope_word, vote_word, reply_word, priority_named, behaviour_named, policy_named, fence_named, scope_named, vote_named, reply_named};

use task_base::{Behaviour, FenceAt, Policy, Priority, Scope};

/// The word of a priority.
pub fn priority_word(priority: Priority) -> &'static str
    ensures word { result.now ≡ priority_word priority }
    ensures short { length result.now ≤ 13 }
{
    match priority {
        Priority::BestEffort => "best_effort",
        Priority::UserVisible => "user_visible",
        Priority::UserBlocking => "user_blocking",
    }
}

/// The word of a behaviour at shutdown.
pub fn behaviour_word(behaviour: Behaviour) -> &'static str
    ensures word { result.now ≡ behaviour_word behaviour }
    ensures short { length result.now ≤ 10 }
{
    match behaviour {
        Behaviour::ContinueOnShutdown => "continue",
        Behaviour::SkipOnShutdown => "skip",
        Behaviour::BlockShutdown => "block",
    }
}

/// The word of a policy.
pub fn policy_word(policy: Policy) -> &'static str
    ensures word { result.now ≡ policy_word policy }
    ensures short { length result.now ≤ 10 }
{
    match policy {
        Policy::All => "all",
        Policy::Foreground => "foreground",
        Policy::Nothing => "none",
    }
}

/// The word of where a fence is set.
pub fn fence_word(at: FenceAt) -> &'static str
    ensures word { result.now ≡ fence_word at }
    ensures short { length result.now ≤ 10 }
{
    match at {
        FenceAt::Now => "now",
        FenceAt::Start => "start",
    }
}

/// The word of a blocking scope.
pub fn scope_word(scope: Scope) -> &'static str
    ensures word { result.now ≡ scope_word scope }
    ensures short { length result.now ≤ 10 }
{
    match scope {
        Scope::May => "may",
        Scope::Will => "will",
    }
}

/// The word of a vote.
pub fn vote_word(on: bool) -> &'static str
    ensures word { result.now ≡ vote_word on }
    ensures short { length result.now ≤ 10 }
{
    if on { "on" } else { "off" }
}

/// The word of what a post is answered: whether it is accepted.
pub fn reply_word(ok: bool) -> &'static str
    ensures word { result.now ≡ reply_word ok }
    ensures short { length result.now ≤ 10 }
{
    if ok { "ok" } else { "no" }
}

/// The priority that a word names, if there is one.
#[tactic(auto, using(crate::proofs::Named::named_word))]
pub fn priority_named(word: &[u8]) -> Option<Priority>
    ensures same { result ≡ priority_named word.now }
    ensures word { IfSome result (λ priority. word.now ≡ priority_word priority) }
{
    if word == priority_word(Priority::BestEffort).as_bytes() {
        Some(Priority::BestEffort)
    } else if word == priority_word(Priority::UserVisible).as_bytes() {
        Some(Priority::UserVisible)
    } else if word == priority_word(Priority::UserBlocking).as_bytes() {
        Some(Priority::UserBlocking)
    } else {
        None
    }
}

/// The behaviour at shutdown that a word names, if there is one.
#[tactic(auto, using(crate::proofs::Named::named_word))]
pub fn behaviour_named(word: &[u8]) -> Option<Behaviour>
    ensures same { result ≡ behaviour_named word.now }
    ensures word { IfSome result (λ behaviour. word.now ≡ behaviour_word behaviour) }
{
    if word == behaviour_word(Behaviour::ContinueOnShutdown).as_bytes() {
        Some(Behaviour::ContinueOnShutdown)
    } else if word == behaviour_word(Behaviour::SkipOnShutdown).as_bytes() {
        Some(Behaviour::SkipOnShutdown)
    } else if word == behaviour_word(Behaviour::BlockShutdown).as_bytes() {
        Some(Behaviour::BlockShutdown)
    } else {
        None
    }
}

/// The policy that a word names, if there is one.
#[tactic(auto, using(crate::proofs::Named::named_word))]
pub fn policy_named(word: &[u8]) -> Option<Policy>
    ensures same { result ≡ policy_named word.now }
    ensures word { IfSome result (λ policy. word.now ≡ policy_word policy) }
{
    if word == policy_word(Policy::All).as_bytes() {
        Some(Policy::All)
    } else if word == policy_word(Policy::Foreground).as_bytes() {
        Some(Policy::Foreground)
    } else if word == policy_word(Policy::Nothing).as_bytes() {
        Some(Policy::Nothing)
    } else {
        None
    }
}

/// Where a word sets a fence, if it says so.
#[tactic(auto, using(crate::proofs::Named::named_word))]
pub fn fence_named(word: &[u8]) -> Option<FenceAt>
    ensures same { result ≡ fence_named word.now }
    ensures word { IfSome result (λ at. word.now ≡ fence_word at) }
{
    if word == fence_word(FenceAt::Now).as_bytes() {
        Some(FenceAt::Now)
    } else if word == fence_word(FenceAt::Start).as_bytes() {
        Some(FenceAt::Start)
    } else {
        None
    }
}

/// The blocking scope that a word names, if there is one.
#[tactic(auto, using(crate::proofs::Named::named_word))]
pub fn scope_named(word: &[u8]) -> Option<Scope>
    ensures same { result ≡ scope_named word.now }
    ensures word { IfSome result (λ scope. word.now ≡ scope_word scope) }
{
    if word == scope_word(Scope::May).as_bytes() {
        Some(Scope::May)
    } else if word == scope_word(Scope::Will).as_bytes() {
        Some(Scope::Will)
    } else {
        None
    }
}

/// The vote that a word names, if there is one.
#[tactic(auto, using(crate::proofs::Named::named_word))]
pub fn vote_named(word: &[u8]) -> Option<bool>
    ensures same { result ≡ vote_named word.now }
    ensures word { IfSome result (λ on. word.now ≡ vote_word on) }
{
    if word == vote_word(true).as_bytes() {
        Some(true)
    } else if word == vote_word(false).as_bytes() {
        Some(false)
    } else {
        None
    }
}

/// The reply of a post that a word names, if there is one: whether it is accepted.
#[tactic(auto, using(crate::proofs::Named::named_word))]
pub fn reply_named(word: &[u8]) -> Option<bool>
    ensures same { result ≡ reply_named word.now }
    ensures word { IfSome result (λ ok. word.now ≡ reply_word ok) }
{
    if word == reply_word(true).as_bytes() {
        Some(true)
    } else if word == reply_word(false).as_bytes() {
        Some(false)
    } else {
        None
    }
}
