//! What stands at a place of a line. Each call takes the next word; its error says that there is none, or that it is no such
//! value.
ghost use Rattle.std.specs.Prelude.{◌≡◌, ◌≤◌, drop, IfOk};
ghost use Rattle.value_words.specs.Words.{priority_named, behaviour_named, policy_named, fence_named, vote_named, scope_named};
ghost use Rattle.script_model.specs.Places.{said_at, name_at, ends_at, number_at, id_at, time_at, may_block_at, kind_named};

use crate::keywords::{kind_named, may_block_named};
use crate::numbers::number_from;
use crate::reason::Reason;
use crate::words::Words;
use task_base::{Behaviour, FenceAt, MOST_MICROSECONDS, Policy, Priority, RunnerKind, Scope};
use value_words::{
    behaviour_named, fence_named, policy_named, priority_named, scope_named, vote_named,
};

impl<'a> Words<'a> {
    /// A number of 64 bits, from low to high.
    pub(crate) fn number(&mut self, low: u64, high: u64) -> Result<u64, Reason>
        ensures value { result ≡ number_at low high self.old 0 }
        ensures rest { self.new ≡ drop 1 self.old }
        ensures fits { IfOk result (λ number. number ≤ high) }
    {
        match self.next() {
            Some(word) => number_from(low, high, word),
            None => Err(Reason::WORD_COUNT),
        }
    }

    /// A number of 32 bits, from low to high.
    pub fn count(&mut self, low: u32, high: u32) -> Result<u32, Reason>
        ensures value { result ≡ number_at low high self.old 0 }
        ensures rest { self.new ≡ drop 1 self.old }
    {
        let number = self.number(u64::from(low), u64::from(high))?;
        Ok(number as u32)
    }

    /// A number of 8 bits, from 0 to high.
    pub fn byte(&mut self, high: u8) -> Result<u8, Reason>
        ensures value { result ≡ number_at 0 high self.old 0 }
        ensures rest { self.new ≡ drop 1 self.old }
    {
        let number = self.number(0, u64::from(high))?;
        Ok(number as u8)
    }

    /// The number of a task, runner, queue or job.
    pub fn id(&mut self) -> Result<u32, Reason>
        ensures value { result ≡ id_at self.old 0 }
        ensures rest { self.new ≡ drop 1 self.old }
    {
        self.count(0, u32::MAX)
    }

    /// A time in microseconds, from 0 to `MOST_MICROSECONDS`.
    pub fn time(&mut self) -> Result<u64, Reason>
        ensures value { result ≡ time_at self.old 0 }
        ensures rest { self.new ≡ drop 1 self.old }
    {
        self.number(0, MOST_MICROSECONDS)
    }

    /// A priority, by its word.
    pub fn priority(&mut self) -> Result<Priority, Reason>
        ensures value { result ≡ name_at priority_named self.old 0 }
        ensures rest { self.new ≡ drop 1 self.old }
    {
        match self.next() {
            Some(word) => priority_named(word).ok_or(Reason::UNKNOWN_WORD),
            None => Err(Reason::WORD_COUNT),
        }
    }

    /// A behaviour at shutdown, by its word.
    pub fn behaviour(&mut self) -> Result<Behaviour, Reason>
        ensures value { result ≡ name_at behaviour_named self.old 0 }
        ensures rest { self.new ≡ drop 1 self.old }
    {
        match self.next() {
            Some(word) => behaviour_named(word).ok_or(Reason::UNKNOWN_WORD),
            None => Err(Reason::WORD_COUNT),
        }
    }

    /// The kind of a runner.
    pub fn kind(&mut self) -> Result<RunnerKind, Reason>
        ensures value { result ≡ said_at kind_named self.old 0 }
        ensures rest { self.new ≡ drop 1 self.old }
    {
        match self.next() {
            Some(word) => kind_named(word),
            None => Err(Reason::WORD_COUNT),
        }
    }

    /// Whether `mayblock` stands here; nothing else may.
    pub fn may_block(&mut self) -> Result<bool, Reason>
        ensures value { result ≡ may_block_at self.old 0 }
        ensures rest { self.new ≡ drop 1 self.old }
    {
        match self.next() {
            None => Ok(false),
            Some(word) => may_block_named(word),
        }
    }

    /// An execution policy of the pool, by its word.
    pub fn policy(&mut self) -> Result<Policy, Reason>
        ensures value { result ≡ name_at policy_named self.old 0 }
        ensures rest { self.new ≡ drop 1 self.old }
    {
        match self.next() {
            Some(word) => policy_named(word).ok_or(Reason::UNKNOWN_WORD),
            None => Err(Reason::WORD_COUNT),
        }
    }

    /// Where a fence is put.
    pub fn fence(&mut self) -> Result<FenceAt, Reason>
        ensures value { result ≡ name_at fence_named self.old 0 }
        ensures rest { self.new ≡ drop 1 self.old }
    {
        match self.next() {
            Some(word) => fence_named(word).ok_or(Reason::UNKNOWN_WORD),
            None => Err(Reason::WORD_COUNT),
        }
    }

    /// A vote on a queue, by its word: `on` or `off`.
    pub fn vote(&mut self) -> Result<bool, Reason>
        ensures value { result ≡ name_at vote_named self.old 0 }
        ensures rest { self.new ≡ drop 1 self.old }
    {
        match self.next() {
            Some(word) => vote_named(word).ok_or(Reason::UNKNOWN_WORD),
            None => Err(Reason::WORD_COUNT),
        }
    }

    pub(crate) fn scope(&mut self) -> Result<Scope, Reason>
        ensures value { result ≡ name_at scope_named self.old 0 }
        ensures rest { self.new ≡ drop 1 self.old }
    {
        match self.next() {
            Some(word) => scope_named(word).ok_or(Reason::UNKNOWN_WORD),
            None => Err(Reason::WORD_COUNT),
        }
    }

    /// No word stands here.
    pub fn end(mut self) -> Result<(), Reason>
        ensures { result ≡ ends_at self.entry 0 }
    {
        match self.next() {
            Some(_) => Err(Reason::WORD_COUNT),
            None => Ok(()),
        }
    }
}
