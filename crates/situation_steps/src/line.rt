//! Who stands first of a source in the line.
ghost use Rattle.std.specs.Prelude.{◌≡◌, find, length, position, slice_get};
ghost use Rattle.situation.specs.Line.{waits_at};
ghost use Rattle.log_count.specs.Sources.{place_of};

use crate::declared::sequence_of;
use crate::parts::{Waiter, Waits};
use crate::state::Situation;
use task_base::{Script, TaskSource};

/// Whether who waits is of a source: a task of the sequence, or the job.
pub(crate) fn waits_at(script: &Script, source: TaskSource, waiter: &Waiter) -> bool
    ensures { result ≡ waits_at script.now source waiter.now }
{
    match (source, waiter.waits) {
        (TaskSource::Sequence(sequence), Waits::Task { task, home, .. }) => {
            sequence_of(script, home, task) == sequence as usize
        }
        (TaskSource::Job(job), Waits::OfJob(waits)) => waits == job,
        _ => false,
    }
}

impl Situation {
    /// The place in the line at which the first of a source stands, if one does.
    fn position(&self, script: &Script, source: TaskSource) -> Option<usize>
        ensures { result ≡ position (waits_at script.now source) self.now.line }
    {
        self.line
            .iter()
            .position(|waiter| waits_at(script, source, waiter))
    }

    /// How many stand in the line before the first of a source.
    #[tactic(auto, using(crate::proofs::Places::place_of_none, crate::proofs::Places::place_of_some))]
    pub(crate) fn place(&self, script: &Script, source: TaskSource) -> usize
        ensures { result ≡ place_of (waits_at script.now source) self.now.line }
    {
        match self.position(script, source) {
            None => self.line.len(),
            Some(place) => place,
        }
    }

    /// How many stand in the line.
    pub(crate) fn in_line(&self) -> usize
        ensures { result ≡ length self.now.line }
    {
        self.line.len()
    }

    /// Who stands at a place of the line.
    pub(crate) fn waiter_at(&self, place: usize) -> Option<Waiter>
        ensures { result ≡ slice_get self.now.line place }
    {
        match self.line.get(place) {
            None => None,
            Some(waiter) => Some(*waiter),
        }
    }

    /// The first of a source in the line.
    #[tactic(auto, using(crate::proofs::Places::find_is_at))]
    pub(crate) fn first(&self, script: &Script, source: TaskSource) -> Option<Waiter>
        ensures { result ≡ find (waits_at script.now source) self.now.line }
    {
        self.waiter_at(self.place(script, source))
    }
}
