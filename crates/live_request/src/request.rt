ghost use Rattle.std.specs.Prelude.{◌≡◌};
ghost use Rattle.live_request.specs.Requests.{ask_of, call_of, driver_call, job_call, named_by, post_call, queue_call, seat_call};

use crate::codes;
use crate::named::{fence_of, flag_of, policy_of, priority_of, scope_of};
use live_core::Call;
use std::convert::TryFrom;
use task_base::{SeatNo, TaskId};

/// What C asks of a live environment. `codes` has the numbers.
#[repr(C)]
#[derive(Clone, Copy, Debug)]
pub struct Request {
    /// The call.
    pub call: u32,
    /// 0: the call is made. 1: the call's seat rests until it would be answered.
    pub rests: u32,
    /// The seat whose thread makes the call; a rest is the call's own seat's.
    pub by: u32,
    /// The call's seat, where the call says one: else it is the driver's.
    pub seat: u32,
    /// The task of a post that names its task, or `NO_TASK`.
    pub task: u32,
    /// The runner, queue or job.
    pub place: u32,
    /// The scope, policy, priority or fence, or the number of a voter or a class.
    pub word: u32,
    /// What is voted: 1 is on, 0 is off.
    pub on: u32,
    /// The delay of a post, or the reading of the clock, in microseconds.
    pub time: u64,
}

/// What a request asks.
#[derive(Clone, Copy, Debug)]
pub enum Ask {
    /// A call, by the thread of a seat.
    Make { by: SeatNo, call: Call },
    /// The call's seat rests for it.
    Rest { call: Call },
}

impl Request {
    /// What the request asks, if it asks anything.
    pub fn ask(&self) -> Option<Ask>
        ensures { result ≡ ask_of self.now }
    {
        let call = self.made_call()?;
        match self.rests {
            0 => Some(Ask::Make { by: self.by, call }),
            1 => Some(Ask::Rest { call }),
            _ => None,
        }
    }

    /// The call that the request makes, if it makes one.
    pub fn made_call(&self) -> Option<Call>
        ensures { result ≡ call_of self.now }
    {
        let post = self.post_call();
        let by_seat = post.or(self.seat_call());
        by_seat
            .or(self.queue_call())
            .or(self.job_call())
            .or(self.driver_call())
    }

    // The task that a post names, if it names one.
    fn named(&self) -> Option<TaskId>
        ensures { result ≡ named_by self.now }
    {
        if self.task == codes::NO_TASK {
            None
        } else {
            Some(self.task)
        }
    }

    // A post, of the task that it names, or else of one that the environment hands out.
    fn post_call(&self) -> Option<Call>
        ensures { result ≡ post_call self.now }
    {
        let (seat, task) = (self.seat, self.named());
        let (place, delay) = (self.place, self.time);
        match self.call {
            codes::POST => Some(Call::Post {
                seat,
                task,
                runner: place,
                delay,
            }),
            codes::MAIN => Some(Call::Main {
                seat,
                task,
                queue: place,
                delay,
            }),
            _ => None,
        }
    }

    // A call that says its seat, beside the posts.
    fn seat_call(&self) -> Option<Call>
        ensures { result ≡ seat_call self.now }
    {
        let seat = self.seat;
        match self.call {
            codes::TAKE => Some(Call::Take { seat }),
            codes::END => Some(Call::End { seat }),
            codes::ENTER => scope_of(self.word).map(|scope| Call::Enter { seat, scope }),
            codes::LEAVE => Some(Call::Leave { seat }),
            codes::JOB_STEP => Some(Call::JobStep { seat }),
            _ => None,
        }
    }

    // A call of the driver that names a main queue.
    fn queue_call(&self) -> Option<Call>
        ensures { result ≡ queue_call self.now }
    {
        let queue = self.place;
        match self.call {
            codes::FENCE => fence_of(self.word).map(|at| Call::Fence { queue, at }),
            codes::UNFENCE => Some(Call::Unfence { queue }),
            codes::VOTE => {
                let voter = u8::try_from(self.word).ok()?;
                flag_of(self.on).map(|on| Call::Vote { queue, voter, on })
            }
            codes::RANK => {
                let class = u8::try_from(self.word).ok()?;
                Some(Call::Rank { queue, class })
            }
            codes::CLOSE => Some(Call::Close { queue }),
            _ => None,
        }
    }

    // A call of the driver that names a job.
    fn job_call(&self) -> Option<Call>
        ensures { result ≡ job_call self.now }
    {
        let job = self.place;
        match self.call {
            codes::JOB_POST => Some(Call::JobPost { job }),
            codes::JOB_TAKE => Some(Call::JobTake { job }),
            codes::JOB_CANCEL => Some(Call::JobCancel { job }),
            codes::CANCELLED => Some(Call::Cancelled { job }),
            codes::JOINED => Some(Call::Joined { job }),
            _ => None,
        }
    }

    // Any other call of the driver.
    fn driver_call(&self) -> Option<Call>
        ensures { result ≡ driver_call self.now }
    {
        let runner = self.place;
        match self.call {
            codes::TICK => Some(Call::Tick { reading: self.time }),
            codes::POLICY => policy_of(self.word).map(|policy| Call::Policy { policy }),
            codes::REPRIO => {
                priority_of(self.word).map(|priority| Call::Reprio { runner, priority })
            }
            codes::MAIN_TAKE => Some(Call::MainTake),
            codes::MAIN_END => Some(Call::MainEnd),
            codes::IDLE => Some(Call::Idle),
            codes::SHUTDOWN => Some(Call::Shutdown),
            codes::DONE => Some(Call::Done),
            _ => None,
        }
    }
}
