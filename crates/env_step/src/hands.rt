ghost use Rattle.std.specs.Prelude.{◌≡◌, ◌≤◌, ◌<◌, length, replicate, slice_get, slice_set, IfOk, Some};
ghost use Rattle.std.specs.List.{list_all};
ghost use Rattle.task_model.specs.Seats.{is_free};
ghost use Rattle.hist_model.specs.Legal.{IsLegal};
ghost use Rattle.hist_model.specs.Open.{IsClosed};
ghost use Rattle.env_core.specs.Views.{EnvView};
ghost use Rattle.env_step.specs.Hands.{AreInHand, IsInHand, is_empty};
ghost use Rattle.env_step.specs.Steps.{IsStep, Steps};

use crate::driver::step_of_driver;
use crate::hand::Hand;
use crate::item::step_of_item;
use crate::task::step_of_task;
use crate::wait::Wait;
use crate::worker::step_of_worker;
use env_core::Env;
use std::alloc::{AllocError, Global};
use std::marker::Model;
use std::mem;
use task_base::{Kind, Script, SeatNo};
use task_body::ScriptBody;

/// What all seats have in hand, while they do their steps one by one.
///
/// Contracts see the hand of each seat, at its number's place.
#[derive(Drop)]
pub struct Hands {
    hands: Vec<Hand>,
}

impl Model for Hands {
    ghost use Rattle.std.specs.Prelude.{List};
    ghost use Rattle.env_step.specs.declared.hand.Hand.{Hand as HandView};

    ghost Value = { List HandView };

    ghost view = { λ h. h.hands.items };
}

impl Hands {
    /// So many hands that are free. The error is want of memory.
    pub fn free(alloc: Global, count: u32) -> Result<Hands, AllocError>
        ensures { IfOk result (λ hands. hands ≡ replicate count Hand.Free) }
    {
        let hands = free_hands(alloc, count)?;
        Ok(Hands { hands })
    }

    /// The hands, each at its number's place.
    pub fn as_slice(&self) -> &[Hand]
        ensures { result.now ≡ self.now }
    {
        &self.hands
    }

    /// What a seat has in hand.
    pub fn at(&self, seat: SeatNo) -> &Hand
        requires { seat < length self.now }
        ensures { slice_get self.now seat ≡ Some result.now }
    {
        &self.hands[seat as usize]
    }

    /// Whether the seat runs nothing and is inside no job.
    pub fn is_free(&self, seat: SeatNo) -> bool
        requires { seat < length self.now }
        ensures { (view : EnvView) → AreInHand view self.now → result ≡ is_free view.history seat }
    {
        matches!(self.at(seat), Hand::Free)
    }

    /// Whether all seats are free.
    pub fn all_free(&self) -> bool
        ensures { result ≡ list_all is_empty self.now }
    {
        all_free(&self.hands)
    }

    /// One step of a seat, in an environment whose seats have this in hand. A seat that may make an entry makes it, the one that
    /// the rules allow it then; a tick has the moment that this reading of the clock becomes, in microseconds. Else nothing
    /// changes, and the error says what the seat waits for. `script` is the environment's own.
    pub fn step(
        &mut self,
        env: &mut Env<ScriptBody>,
        script: &Script,
        seat: SeatNo,
        reading: u64,
    ) -> Result<Kind, Wait>
        requires hands { AreInHand env.old self.old }
        requires script { script.now ≡ env.old.script }
        requires known { seat ≤ env.old.script.workers }
        ensures hands { AreInHand env.new self.new }
        ensures steps { Steps env.old env.new seat reading result }
    {
        let hand = self.take(seat);
        let (behind, answer) = step_with(env, script, seat, hand, reading);
        self.put(seat, behind);
        answer
    }

    /// Takes what a seat has in hand.
    fn take(&mut self, seat: SeatNo) -> Hand
        requires { seat < length self.old }
        ensures was { slice_get self.old seat ≡ Some result }
        ensures free { self.new ≡ slice_set self.old seat Hand.Free }
    {
        take_from(&mut self.hands, seat)
    }

    /// Gives a seat this in hand.
    fn put(&mut self, seat: SeatNo, hand: Hand)
        requires { seat < length self.old }
        ensures { self.new ≡ slice_set self.old seat hand }
    {
        self.hands[seat as usize] = hand;
    }
}

/// One step of a seat that has this in hand. Answers what it has in hand behind it, and what it entered or waits for.
fn step_with(
    env: &mut Env<ScriptBody>,
    script: &Script,
    seat: SeatNo,
    hand: Hand,
    reading: u64,
) -> (Hand, Result<Kind, Wait>)
    requires script { script.now ≡ env.old.script }
    requires closed { IsClosed env.old.script }
    requires legal { IsLegal env.old.script env.old.history }
    requires known { seat ≤ env.old.script.workers }
    requires in_hand { IsInHand env.old seat hand }
    ensures { IsStep env.old env.new seat reading result.0 result.1 }
{
    match hand {
        Hand::Task(at) => step_of_task(env, seat, at),
        Hand::Item(pass) => step_of_item(env, script, seat, pass),
        Hand::Free => {
            if seat == 0 {
                step_of_driver(env, reading)
            } else {
                step_of_worker(env, seat)
            }
        }
    }
}

/// Takes what a seat has in hand out of these hands.
fn take_from(hands: &mut Vec<Hand>, seat: SeatNo) -> Hand
    requires { seat < length hands.old.items }
    ensures was { slice_get hands.old.items seat ≡ Some result }
    ensures free { hands.new.items ≡ slice_set hands.old.items seat Hand.Free }
{
    mem::replace(&mut hands[seat as usize], Hand::Free)
}

/// So many hands that are free. The error is want of memory.
fn free_hands(alloc: Global, count: u32) -> Result<Vec<Hand>, AllocError>
    ensures { IfOk result (λ hands. hands.items ≡ replicate count Hand.Free) }
{
    let mut hands = Vec::with_capacity(alloc, count as usize)?;
    for _ in 0..count {
        hands.push(Hand::Free)?;
    }
    Ok(hands)
}

/// Whether these hands are all free.
fn all_free(hands: &[Hand]) -> bool
    ensures { result ≡ list_all is_empty hands.now }
{
    hands.iter().all(|hand| matches!(hand, Hand::Free))
}
