ghost use Rattle.std.specs.Prelude.{◌≡◌, ◌<◌, ◌≤◌, length, replicate, slice_set, true};
ghost use Rattle.queue_fence.specs.Voters.{all_on};

use std::marker::Model;

/// How many voters a main queue has at most (this project's own limit).
pub const MOST_VOTERS: u8 = 16;

const PLACES: usize = MOST_VOTERS as usize;

/// The voters of a main queue (Chromium's `TaskQueue::QueueEnabledVoter` of `task_queue.h`): its tasks run only where
/// all of them vote for it. A voter is a number from 0, below the count.
#[derive(Debug, Drop)]
pub struct Voters {
    votes: [bool; PLACES],
    count: u8,
}

impl Model for Voters {
    ghost use Rattle.std.specs.Prelude.{◌≤◌, Bool, List, take};

    ghost Value = { List Bool };

    ghost view = { λ voters. take voters.count voters.votes };

    ghost invariant = { λ voters. voters.count ≤ 16 };
}

impl Voters {
    /// So many voters, all of which vote for the queue.
    pub fn new(count: u8) -> Voters
        requires { count ≤ 16 }
        ensures { result ≡ replicate count true }
    {
        Voters {
            votes: [true; PLACES],
            count,
        }
    }

    /// Changes the vote of one voter.
    pub fn vote(&mut self, voter: u8, on: bool)
        requires { voter < length self.old }
        ensures { self.new ≡ slice_set self.old voter on }
    {
        self.votes[voter as usize] = on;
    }

    /// Whether all vote for the queue. It is so where there are no voters.
    pub fn enabled(&self) -> bool
        ensures { result ≡ all_on self.now }
    {
        for on in &self.votes[..self.count as usize] {
            if !*on {
                return false;
            }
        }
        true
    }
}
