//! Answers as words.
use entry_lines::line;
use live_core::Unmade;
use live_roster::{Rest, Unrested, Wake};
use std::alloc::{AllocError, Global};
use task_base::{Entry, Kind, SeatNo};

/// An entry as its line in a log, without its place.
fn entry_words(alloc: Global, seat: SeatNo, kind: Kind) -> Result<String, AllocError> {
    let line = line(0, &Entry { seat, kind });
    let words = line.as_slice();
    let words = words.strip_prefix(b"0 ").unwrap_or(words);
    let words = words.strip_suffix(b"\n").unwrap_or(words);
    String::from_utf8_lossy(alloc, words)
}

/// Why there is no entry, in one or a few words.
fn unmade_words(alloc: Global, why: Unmade) -> Result<String, AllocError> {
    match why {
        Unmade::Misuse => String::from_str(alloc, "misuse"),
        Unmade::Full => String::from_str(alloc, "full"),
        Unmade::Nothing => String::from_str(alloc, "nothing"),
        Unmade::Over => String::from_str(alloc, "over"),
        Unmade::NotYet(not_yet) => {
            format!(in alloc; "not yet {} {}", not_yet.running, not_yet.ready)
        }
        Unmade::Blocked(blocked) => format!(in alloc; "blocked {}", blocked.count),
    }
}

/// What a call of this seat has answered, in the words of a row.
pub fn answer_words(
    alloc: Global,
    seat: SeatNo,
    answer: Result<Kind, Unmade>,
) -> Result<String, AllocError> {
    match answer {
        Ok(kind) => entry_words(alloc, seat, kind),
        Err(why) => unmade_words(alloc, why),
    }
}

/// Whether a seat rests, in the words of a row.
pub fn rest_words(answer: Result<Rest, Unrested>) -> &'static str {
    match answer {
        Ok(_) => "rests",
        Err(Unrested::Misuse) => "misuse",
        Err(Unrested::HasCome) => "has come",
    }
}

/// Who is woken, in the words that a row has behind those of the answer.
pub fn wake_words(alloc: Global, wake: Wake) -> Result<String, AllocError> {
    match wake {
        Wake::Nobody => Ok(String::new(alloc)),
        Wake::One(woken) => {
            let seat = woken.seat();
            woken.spend();
            format!(in alloc; ", wakes {seat}")
        }
        Wake::Everyone => String::from_str(alloc, ", wakes everyone"),
    }
}
