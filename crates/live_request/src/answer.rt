ghost use Rattle.std.specs.Prelude.{◌≡◌};
ghost use Rattle.live_request.specs.Told.{bare, entry_answer, made_answer, rest_answer, unmade_answer, with_wake, wake_told, woken_told};

use crate::codes;
use crate::named::code_of_flag;
use crate::told::{
    id_told, item_told, kind_told, next_told, ok_told, place_told, task_told, value_told, word_told,
};
use live_core::Unmade;
use live_roster::{Rest, Unrested, Wake};
use task_base::Kind;

/// What C is answered. `codes` has the numbers. What an answer doesn't tell is 0, and the task `NO_TASK`.
#[repr(C)]
#[derive(Clone, Copy, Debug)]
pub struct Answer {
    /// What came of the request.
    pub status: u32,
    /// Where an entry was made, its kind.
    pub kind: u32,
    /// Its task: that was posted, taken or ended, or whose scope it is.
    pub task: u32,
    /// Its runner, queue or job.
    pub place: u32,
    /// Of a job's item: the number that the seat has inside the job.
    pub id: u32,
    /// The item of the job.
    pub item: u32,
    /// Where the seat goes on with a job: its next item.
    pub next: u32,
    /// Its scope, policy, priority, fence or reply, or the number of its voter or class.
    pub word: u32,
    /// 1 where a post is accepted, a vote is on, or a seat goes on with its job.
    pub ok: u32,
    /// Where it has not come: how many seats run what is waited for. Where shutdown is blocked: how much blocks it.
    pub count: u32,
    /// Where it has not come: 1 where a seat could take more of it.
    pub ready: u32,
    /// Whom to wake once the lock is free: nobody, one seat, or everyone.
    pub wake: u32,
    /// The seat, where it is one.
    pub woken: u32,
    /// Of a post the delay, of a tick the moment, of a take what was found, of an end what is left, of an item its value, of a
    /// join the job's sum.
    pub value: u64,
}

impl Answer {
    /// An answer that tells this status, and nothing else.
    pub fn bare(status: u32) -> Answer
        ensures { result ≡ bare status }
    {
        Answer {
            status,
            kind: 0,
            task: codes::NO_TASK,
            place: 0,
            id: 0,
            item: 0,
            next: 0,
            word: 0,
            ok: 0,
            count: 0,
            ready: 0,
            wake: codes::NOBODY,
            woken: 0,
            value: 0,
        }
    }

    /// What a call made, and whom to wake.
    pub fn of_call(made: Result<Kind, Unmade>, wake: Wake) -> Answer
        ensures { result ≡ with_wake (made_answer made) wake }
    {
        let answer = match made {
            Ok(kind) => Answer::of_entry(kind),
            Err(why) => Answer::of_unmade(why),
        };
        answer.with_wake(wake)
    }

    /// Whether a seat rests, and whom to wake.
    pub fn of_rest(rest: Result<Rest, Unrested>, wake: Wake) -> Answer
        ensures { result ≡ with_wake (rest_answer rest) wake }
    {
        let status = match rest {
            Ok(_) => codes::RESTS,
            Err(Unrested::Misuse) => codes::MISUSE,
            Err(Unrested::HasCome) => codes::HAS_COME,
        };
        Answer::bare(status).with_wake(wake)
    }

    // An entry that was made.
    fn of_entry(kind: Kind) -> Answer
        ensures { result ≡ entry_answer kind }
    {
        Answer {
            kind: kind_told(kind),
            task: task_told(kind),
            place: place_told(kind),
            id: id_told(kind),
            item: item_told(kind),
            next: next_told(kind),
            word: word_told(kind),
            ok: ok_told(kind),
            value: value_told(kind),
            ..Answer::bare(codes::MADE)
        }
    }

    // Why no entry was made.
    fn of_unmade(why: Unmade) -> Answer
        ensures { result ≡ unmade_answer why }
    {
        match why {
            Unmade::Misuse => Answer::bare(codes::MISUSE),
            Unmade::Full => Answer::bare(codes::FULL),
            Unmade::Nothing => Answer::bare(codes::NOTHING),
            Unmade::Over => Answer::bare(codes::OVER),
            Unmade::NotYet(not_yet) => Answer {
                count: not_yet.running,
                ready: code_of_flag(not_yet.ready),
                ..Answer::bare(codes::NOT_YET)
            },
            Unmade::Blocked(blocked) => Answer {
                count: blocked.count,
                ..Answer::bare(codes::BLOCKED)
            },
        }
    }

    // The answer, and whom to wake, which is for C to do from here on.
    fn with_wake(self, wake: Wake) -> Answer
        ensures { result ≡ with_wake self wake }
    {
        let (wake, woken) = match wake {
            Wake::Nobody => (codes::NOBODY, 0),
            Wake::One(woken) => {
                let seat = woken.seat();
                woken.spend();
                (codes::ONE, seat)
            }
            Wake::Everyone => (codes::EVERYONE, 0),
        };
        Answer {
            wake,
            woken,
            ..self
        }
    }
}
