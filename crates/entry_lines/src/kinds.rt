ghost use Rattle.std.specs.Prelude.{◌≡◌, [], ◌∷◌, codes, IfSome};
ghost use Rattle.line_text.specs.Words.{texts};
ghost use Rattle.log_model.specs.Fits.{KindFits};
ghost use Rattle.log_model.specs.LogText.{kind_words};
ghost use Rattle.entry_lines.specs.Kinds.{kind_of, kind_alone, kind_with_one, kind_with_two, kind_with_three, kind_with_four, kind_with_five, joined_of};

use crate::keywords::{ending_of, is_word, next_of};
use numeral_text::{number_8, number_32, number_64};
use task_base::{JobReply, Kind};
use value_words::{
    fence_named, policy_named, priority_named, reply_named, scope_named, vote_named,
};

/// The kind that has these words, its name and its arguments, if there is one.
#[tactic(auto, unfolding(crate::specs::Kinds::kind_of))]
pub fn kind_of(words: &[&[u8]]) -> Option<Kind>
    ensures same { result ≡ kind_of (texts words.now) }
    ensures words { IfSome result (λ kind. kind_words kind ≡ texts words.now) }
    ensures fits { IfSome result KindFits }
{
    match words {
        [name] => kind_alone(name),
        [name, first] => kind_with_one(name, first),
        [name, first, second] => kind_with_two(name, first, second),
        [name, first, second, third] => kind_with_three(name, first, second, third),
        [name, first, second, third, fourth] => {
            kind_with_four(name, first, second, third, fourth)
        }
        [name, first, second, third, fourth, fifth] => {
            kind_with_five(name, first, second, third, fourth, fifth)
        }
        _ => None,
    }
}

#[tactic(auto, unfolding(crate::specs::Kinds::kind_alone))]
fn kind_alone(name: &[u8]) -> Option<Kind>
    ensures same { result ≡ kind_alone name.now }
    ensures words { IfSome result (λ kind. kind_words kind ≡ name.now ∷ []) }
    ensures fits { IfSome result KindFits }
{
    if is_word(name, b"mainnone") {
        Some(Kind::MainNone)
    } else if is_word(name, b"idle") {
        Some(Kind::Idle)
    } else if is_word(name, b"shutdown") {
        Some(Kind::Shutdown)
    } else if is_word(name, b"done") {
        Some(Kind::Done)
    } else {
        None
    }
}

#[tactic(auto, unfolding(crate::specs::Kinds::kind_with_one))]
fn kind_with_one(name: &[u8], first: &[u8]) -> Option<Kind>
    ensures same { result ≡ kind_with_one name.now first.now }
    ensures words { IfSome result (λ kind. kind_words kind ≡ name.now ∷ first.now ∷ []) }
    ensures fits { IfSome result KindFits }
{
    if is_word(name, b"tick") {
        let now = number_64(first)?;
        Some(Kind::Tick { now })
    } else if is_word(name, b"unblock") {
        let task = number_32(first)?;
        Some(Kind::Leave { task })
    } else if is_word(name, b"policy") {
        let policy = policy_named(first)?;
        Some(Kind::Policy { policy })
    } else if is_word(name, b"unfence") {
        let queue = number_32(first)?;
        Some(Kind::Unfence { queue })
    } else if is_word(name, b"close") {
        let queue = number_32(first)?;
        Some(Kind::Close { queue })
    } else if is_word(name, b"cancel") {
        let job = number_32(first)?;
        Some(Kind::JobCancel { job })
    } else if is_word(name, b"cancelled") {
        let job = number_32(first)?;
        Some(Kind::Cancelled { job })
    } else {
        None
    }
}

#[tactic(auto, unfolding(crate::specs::Kinds::kind_with_two))]
fn kind_with_two(name: &[u8], first: &[u8], second: &[u8]) -> Option<Kind>
    ensures same { result ≡ kind_with_two name.now first.now second.now }
    ensures words { IfSome result (λ kind. kind_words kind ≡ name.now ∷ first.now ∷ second.now ∷ []) }
    ensures fits { IfSome result KindFits }
{
    if is_word(name, b"end") {
        let (task, left) = (number_32(first)?, number_64(second)?);
        Some(Kind::End { task, left })
    } else if is_word(name, b"block") {
        let (task, scope) = (number_32(first)?, scope_named(second)?);
        Some(Kind::Enter { task, scope })
    } else if is_word(name, b"reprio") {
        let (runner, priority) = (number_32(first)?, priority_named(second)?);
        Some(Kind::Reprio { runner, priority })
    } else if is_word(name, b"fence") {
        let (queue, at) = (number_32(first)?, fence_named(second)?);
        Some(Kind::Fence { queue, at })
    } else if is_word(name, b"rank") {
        let (queue, class) = (number_32(first)?, number_8(second)?);
        Some(Kind::Rank { queue, class })
    } else if is_word(name, b"mainend") {
        let (task, left) = (number_32(first)?, number_64(second)?);
        Some(Kind::MainEnd { task, left })
    } else if is_word(name, b"startjob") {
        let (job, ok) = (number_32(first)?, reply_named(second)?);
        Some(Kind::JobPost { job, ok })
    } else if is_word(name, b"joined") {
        let (job, reply) = (number_32(first)?, ending_of(second)?);
        Some(Kind::Joined { job, reply })
    } else {
        None
    }
}

#[tactic(auto, unfolding(crate::specs::Kinds::kind_with_three))]
fn kind_with_three(name: &[u8], first: &[u8], second: &[u8], third: &[u8]) -> Option<Kind>
    ensures same { result ≡ kind_with_three name.now first.now second.now third.now }
    ensures words { IfSome result (λ kind. kind_words kind ≡ name.now ∷ first.now ∷ second.now ∷ third.now ∷ []) }
    ensures fits { IfSome result KindFits }
{
    if is_word(name, b"take") {
        let (task, runner, found) = (number_32(first)?, number_32(second)?, number_64(third)?);
        Some(Kind::Take {
            task,
            runner,
            found,
        })
    } else if is_word(name, b"vote") {
        let (queue, voter, on) = (number_32(first)?, number_8(second)?, vote_named(third)?);
        Some(Kind::Vote { queue, voter, on })
    } else if is_word(name, b"maintake") {
        let (task, queue, found) = (number_32(first)?, number_32(second)?, number_64(third)?);
        Some(Kind::MainTake { task, queue, found })
    } else if is_word(name, b"jobtake") {
        let (job, id, item) = (number_32(first)?, number_32(second)?, number_32(third)?);
        Some(Kind::JobTake { job, id, item })
    } else if is_word(name, b"joined") {
        joined_of(first, second, third)
    } else {
        None
    }
}

// The join of a job that is done, with its sum.
#[tactic(auto, unfolding(crate::specs::Kinds::joined_of))]
fn joined_of(first: &[u8], second: &[u8], third: &[u8]) -> Option<Kind>
    ensures same { result ≡ joined_of first.now second.now third.now }
    ensures words { IfSome result (λ kind. kind_words kind ≡ codes "joined" ∷ first.now ∷ second.now ∷ third.now ∷ []) }
    ensures fits { IfSome result KindFits }
{
    if !is_word(second, b"done") {
        return None;
    }
    let (job, sum) = (number_32(first)?, number_64(third)?);
    let reply = JobReply::Finished { sum };
    Some(Kind::Joined { job, reply })
}

#[tactic(auto, unfolding(crate::specs::Kinds::kind_with_four))]
fn kind_with_four(
    name: &[u8],
    first: &[u8],
    second: &[u8],
    third: &[u8],
    fourth: &[u8],
) -> Option<Kind>
    ensures same { result ≡ kind_with_four name.now first.now second.now third.now fourth.now }
    ensures words { IfSome result (λ kind. kind_words kind ≡ name.now ∷ first.now ∷ second.now ∷ third.now ∷ fourth.now ∷ []) }
    ensures fits { IfSome result KindFits }
{
    let (task, home) = (number_32(first)?, number_32(second)?);
    let (delay, ok) = (number_64(third)?, reply_named(fourth)?);
    if is_word(name, b"post") {
        Some(Kind::Post {
            task,
            runner: home,
            delay,
            ok,
        })
    } else if is_word(name, b"main") {
        Some(Kind::Main {
            task,
            queue: home,
            delay,
            ok,
        })
    } else {
        None
    }
}

#[tactic(auto, unfolding(crate::specs::Kinds::kind_with_five))]
fn kind_with_five(
    name: &[u8],
    first: &[u8],
    second: &[u8],
    third: &[u8],
    fourth: &[u8],
    fifth: &[u8],
) -> Option<Kind>
    ensures same { result ≡ kind_with_five name.now first.now second.now third.now fourth.now fifth.now }
    ensures words { IfSome result (λ kind. kind_words kind ≡ name.now ∷ first.now ∷ second.now ∷ third.now ∷ fourth.now ∷ fifth.now ∷ []) }
    ensures fits { IfSome result KindFits }
{
    let (job, id, item) = (number_32(first)?, number_32(second)?, number_32(third)?);
    let (value, next) = (number_64(fourth)?, next_of(fifth)?);
    if !is_word(name, b"jobstep") {
        return None;
    }
    Some(Kind::JobStep {
        job,
        id,
        item,
        value,
        next,
    })
}
