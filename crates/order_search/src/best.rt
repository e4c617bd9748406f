ghost use Rattle.std.specs.Prelude.{◌≡◌, ℕ, ◌<◌, length, drop, get_or, All, IfOk};
ghost use Rattle.order_model.specs.declared.event.Event.{Event as AnyEvent};
ghost use Rattle.order_model.specs.Orders.{own_events};
ghost use Rattle.order_search.specs.Search.{Keeps};
ghost use Rattle.order_search.specs.Walk.{events_in};

use crate::placed::Placed;
use order_model::Event;
use std::alloc::{AllocError, Global};

/// A beginning of an order, and the events that it leaves.
#[derive(Debug, Drop)]
pub(crate) struct Best {
    pub events: Vec<Event>,
    pub rest: Vec<Event>,
}

impl Best {
    /// Takes what is placed in its stead where that is longer. The error is out of memory.
    pub(crate) fn keep(
        &mut self,
        alloc: Global,
        events: &[Event],
        path: &[Placed],
        heads: &[usize],
    ) -> Result<(), AllocError>
        requires seated { All (λ (event : AnyEvent). event.entry.seat < length heads.now) events.now }
        ensures { IfOk result (λ _. Keeps events.now path.now heads.now self.old self.new) }
    {
        if path.len() > self.events.len() {
            let placed = events_of(alloc, path)?;
            let rest = rest_of(alloc, events, heads)?;
            self.events = placed;
            self.rest = rest;
        }
        Ok(())
    }
}

/// The events that are placed. The error is out of memory.
pub(crate) fn events_of(alloc: Global, path: &[Placed]) -> Result<Vec<Event>, AllocError>
    ensures { IfOk result (λ events. events.items ≡ events_in path.now) }
{
    let mut events = Vec::with_capacity(alloc, path.len())?;
    for placed in path {
        events.push(placed.event)?;
    }
    Ok(events)
}

/// What is left of the events, from the head of each seat on. The error is out of memory.
fn rest_of(alloc: Global, events: &[Event], heads: &[usize]) -> Result<Vec<Event>, AllocError>
    requires seated { All (λ (event : AnyEvent). event.entry.seat < length heads.now) events.now }
    ensures { IfOk result (λ rest. (seat : ℕ) → own_events seat rest.items ≡ own_events seat (drop (get_or heads.now seat 0) events.now)) }
{
    let mut rest = Vec::new(alloc);
    for i in 0..events.len() {
        let event = events[i];
        if heads[event.entry.seat as usize] <= i {
            rest.push(event)?;
        }
    }
    Ok(rest)
}
