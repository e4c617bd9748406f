//! Calls by their words.
use live_core::Call;
use std::str::FromStr;
use task_base::SeatNo;
use value_words::{fence_named, policy_named, priority_named, scope_named, vote_named};

/// What a line asks of a roster.
#[derive(Clone, Copy, Debug)]
pub enum Ask {
    /// A call, by the thread of a seat.
    Call { by: SeatNo, call: Call },
    /// The call's seat rests for it.
    Rest { call: Call },
}

/// What a line asks, and the answer that is wanted of it, if it has both.
pub fn asked(line: &str) -> Option<(Ask, &str)> {
    let (words, answer) = line.split_once(" -> ")?;
    Some((ask_of(words)?, answer))
}

/// What these words ask, if they do: a call, by the thread of its own seat unless another seat is named before it, or a rest.
fn ask_of(words: &str) -> Option<Ask> {
    if let Some(words) = words.strip_prefix("rest ") {
        let call = call_of(words)?;
        return Some(Ask::Rest { call });
    }
    if let Some(words) = words.strip_prefix("by ") {
        let (seat, words) = words.split_once(' ')?;
        let (by, call) = (number(seat)?, call_of(words)?);
        return Some(Ask::Call { by, call });
    }
    let call = call_of(words)?;
    let by = call.seat();
    Some(Ask::Call { by, call })
}

/// The call that these words make, if they make one: the word of the entry that it asks for, the seat that makes it, where that
/// is not always the driver, and what it names.
fn call_of(text: &str) -> Option<Call> {
    let mut words = text.split(' ');
    let word = words.next()?;
    match (words.next(), words.next(), words.next(), words.next()) {
        (None, _, _, _) => call_alone(word),
        (Some(first), None, _, _) => call_with_one(word, first),
        (Some(first), Some(second), None, _) => call_with_two(word, first, second),
        (Some(first), Some(second), Some(third), None) => {
            call_with_three(word, first, second, third)
        }
        (Some(seat), Some(task), Some(home), Some(delay)) if words.next().is_none() => {
            post_named(word, seat, task, home, delay)
        }
        _ => None,
    }
}

fn call_alone(word: &str) -> Option<Call> {
    match word {
        "maintake" => Some(Call::MainTake),
        "mainend" => Some(Call::MainEnd),
        "idle" => Some(Call::Idle),
        "shutdown" => Some(Call::Shutdown),
        "done" => Some(Call::Done),
        _ => None,
    }
}

fn call_with_one(word: &str, first: &str) -> Option<Call> {
    match word {
        "policy" => {
            let policy = policy_named(first.as_bytes())?;
            Some(Call::Policy { policy })
        }
        "tick" => {
            let reading = number(first)?;
            Some(Call::Tick { reading })
        }
        _ => call_of_one(word, number(first)?),
    }
}

/// The call that names one seat, queue or job.
fn call_of_one(word: &str, number: u32) -> Option<Call> {
    match word {
        "take" => Some(Call::Take { seat: number }),
        "end" => Some(Call::End { seat: number }),
        "unblock" => Some(Call::Leave { seat: number }),
        "jobstep" => Some(Call::JobStep { seat: number }),
        "unfence" => Some(Call::Unfence { queue: number }),
        "close" => Some(Call::Close { queue: number }),
        "startjob" => Some(Call::JobPost { job: number }),
        "jobtake" => Some(Call::JobTake { job: number }),
        "cancel" => Some(Call::JobCancel { job: number }),
        "cancelled" => Some(Call::Cancelled { job: number }),
        "joined" => Some(Call::Joined { job: number }),
        _ => None,
    }
}

fn call_with_two(word: &str, first: &str, second: &str) -> Option<Call> {
    match word {
        "block" => {
            let (seat, scope) = (number(first)?, scope_named(second.as_bytes())?);
            Some(Call::Enter { seat, scope })
        }
        "reprio" => {
            let (runner, priority) = (number(first)?, priority_named(second.as_bytes())?);
            Some(Call::Reprio { runner, priority })
        }
        "fence" => {
            let (queue, at) = (number(first)?, fence_named(second.as_bytes())?);
            Some(Call::Fence { queue, at })
        }
        "rank" => {
            let (queue, class) = (number(first)?, number(second)?);
            Some(Call::Rank { queue, class })
        }
        _ => None,
    }
}

fn call_with_three(word: &str, first: &str, second: &str, third: &str) -> Option<Call> {
    match word {
        "post" => {
            let (seat, runner, delay) = (number(first)?, number(second)?, number(third)?);
            let task = None;
            Some(Call::Post {
                seat,
                task,
                runner,
                delay,
            })
        }
        "main" => {
            let (seat, queue, delay) = (number(first)?, number(second)?, number(third)?);
            let task = None;
            Some(Call::Main {
                seat,
                task,
                queue,
                delay,
            })
        }
        "vote" => {
            let (queue, voter) = (number(first)?, number(second)?);
            let on = vote_named(third.as_bytes())?;
            Some(Call::Vote { queue, voter, on })
        }
        _ => None,
    }
}

/// The post of a task that is named.
fn post_named(word: &str, seat: &str, task: &str, home: &str, delay: &str) -> Option<Call> {
    let (seat, task) = (number(seat)?, Some(number(task)?));
    let (home, delay) = (number(home)?, number(delay)?);
    match word {
        "post" => Some(Call::Post {
            seat,
            task,
            runner: home,
            delay,
        }),
        "main" => Some(Call::Main {
            seat,
            task,
            queue: home,
            delay,
        }),
        _ => None,
    }
}

fn number<N: FromStr + Drop>(word: &str) -> Option<N>
where
    N::Err: Drop,
{
    word.parse::<N>().ok()
}
