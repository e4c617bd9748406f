//! The words of the lists of a situation, put behind a key.
ghost use Rattle.std.specs.Prelude.{◌≡◌, ◌++◌, ◌∷◌, [], OnOk};
ghost use Rattle.situation_key.specs.Words.{job_words, list_words, priority_words, seat_words, unripe_words, waiter_words};

use crate::words::{
    importance, job_words, running_words, scope_words, seat_rest_words, unripe_words, waiter_words,
};
use situation_steps::{JobAt, SeatAt, Unripe, Waiter};
use std::alloc::AllocError;
use task_base::Priority;

/// Puts the words of a seat behind a key. The error is out of memory.
fn put_seat(key: &mut Vec<u64>, seat: SeatAt) -> Result<(), AllocError>
    ensures { OnOk result (key.new.items ≡ key.old.items ++ seat_words seat) }
{
    key.extend_from_slice(&running_words(seat.runs))?;
    key.extend_from_slice(&scope_words(seat.scope))?;
    key.extend_from_slice(&seat_rest_words(seat))?;
    Ok(())
}

/// Puts the words of all seats behind a key. The error is out of memory.
pub(crate) fn put_seats(key: &mut Vec<u64>, seats: &[SeatAt]) -> Result<(), AllocError>
    ensures { OnOk result (key.new.items ≡ key.old.items ++ list_words seat_words seats.now) }
{
    key.push(seats.len() as u64)?;
    for seat in seats {
        put_seat(key, *seat)?;
    }
    Ok(())
}

/// Puts the words of the line behind a key. The error is out of memory.
pub(crate) fn put_line(key: &mut Vec<u64>, line: &[Waiter]) -> Result<(), AllocError>
    ensures { OnOk result (key.new.items ≡ key.old.items ++ list_words waiter_words line.now) }
{
    key.push(line.len() as u64)?;
    for waiter in line {
        key.extend_from_slice(&waiter_words(*waiter))?;
    }
    Ok(())
}

/// Puts the words of the tasks that are not ripe behind a key. The error is out of memory.
pub(crate) fn put_unripe(key: &mut Vec<u64>, unripe: &[Unripe]) -> Result<(), AllocError>
    ensures { OnOk result (key.new.items ≡ key.old.items ++ list_words unripe_words unripe.now) }
{
    key.push(unripe.len() as u64)?;
    for u in unripe {
        key.extend_from_slice(&unripe_words(*u))?;
    }
    Ok(())
}

/// Puts the words of all jobs behind a key. The error is out of memory.
pub(crate) fn put_jobs(key: &mut Vec<u64>, jobs: &[JobAt]) -> Result<(), AllocError>
    ensures { OnOk result (key.new.items ≡ key.old.items ++ list_words job_words jobs.now) }
{
    key.push(jobs.len() as u64)?;
    for job in jobs {
        key.extend_from_slice(&job_words(*job))?;
    }
    Ok(())
}

/// Puts the numbers of priorities behind a key. The error is out of memory.
pub(crate) fn put_priorities(key: &mut Vec<u64>, priorities: &[Priority]) -> Result<(), AllocError>
    ensures { OnOk result (key.new.items ≡ key.old.items ++ list_words priority_words priorities.now) }
{
    key.push(priorities.len() as u64)?;
    for priority in priorities {
        key.push(importance(*priority))?;
    }
    Ok(())
}

/// Puts the values of cells behind a key. The error is out of memory.
pub(crate) fn put_cells(key: &mut Vec<u64>, cells: &[u64]) -> Result<(), AllocError>
    ensures { OnOk result (key.new.items ≡ key.old.items ++ list_words (λ value. value ∷ []) cells.now) }
{
    key.push(cells.len() as u64)?;
    key.extend_from_slice(cells)?;
    Ok(())
}
