ghost use Rattle.std.specs.Prelude.{◌≡◌};
ghost use Rattle.script_model.specs.Places.{single_named, many_named, kind_named, may_block_named};

use crate::numbers::number_from;
use crate::reason::Reason;
use task_base::{MOST_WORKERS, RunnerKind};

pub(crate) fn may_block_named(word: &[u8]) -> Result<bool, Reason>
    ensures { result ≡ may_block_named word.now }
{
    if word == b"mayblock".as_slice() {
        Ok(true)
    } else {
        Err(Reason::UNKNOWN_WORD)
    }
}

pub(crate) fn kind_named(word: &[u8]) -> Result<RunnerKind, Reason>
    ensures { result ≡ kind_named word.now }
{
    match word.strip_prefix(b"single:") {
        Some(seat) => single_named(seat),
        None => many_named(word).ok_or(Reason::UNKNOWN_WORD),
    }
}

/// The kind of the runners of one worker seat, whose number the word writes.
fn single_named(seat: &[u8]) -> Result<RunnerKind, Reason>
    ensures { result ≡ single_named seat.now }
{
    let seat = number_from(1, u64::from(MOST_WORKERS), seat)?;
    Ok(RunnerKind::Single(seat as u32))
}

/// The kind of the runners that any worker seat serves.
fn many_named(word: &[u8]) -> Option<RunnerKind>
    ensures { result ≡ many_named word.now }
{
    match word {
        b"parallel" => Some(RunnerKind::Parallel),
        b"sequenced" => Some(RunnerKind::Sequenced),
        _ => None,
    }
}
