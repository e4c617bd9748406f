//! The key of a situation.
ghost use Rattle.std.specs.Prelude.{◌≡◌, IfOk};
ghost use Rattle.situation_key.specs.Words.{key_of};

use crate::puts::{put_cells, put_jobs, put_line, put_priorities, put_seats, put_unripe};
use crate::words::head_words;
use situation_steps::Situation;
use std::alloc::{AllocError, Global};

/// For how many numbers room is taken at once: the key of a small script has no more.
const ROOM: usize = 256;

/// The key of a situation: a list of numbers from which it can be told. The error is out of memory.
#[tactic(auto, unfolding(crate::specs::Words::key_of))]
pub fn key(alloc: Global, s: &Situation) -> Result<Vec<u64>, AllocError>
    ensures { IfOk result (λ found. found.items ≡ key_of s.now) }
{
    let mut key = Vec::with_capacity(alloc, ROOM)?;
    key.extend_from_slice(&head_words(s))?;
    put_priorities(&mut key, s.priorities.as_slice())?;
    put_seats(&mut key, s.seats.as_slice())?;
    put_line(&mut key, s.line.as_slice())?;
    put_unripe(&mut key, s.unripe.as_slice())?;
    put_jobs(&mut key, s.jobs.as_slice())?;
    put_cells(&mut key, s.cells.as_slice())?;
    Ok(key)
}
