ghost use Rattle.std.specs.Prelude.{◌≡◌, ◌⊎◌, true};
ghost use Rattle.env_io.specs.Bytes.{Gains, Rose};
ghost use Rattle.app_modes.specs.Failures.{is_verdict, note_line};
ghost use Rattle.app_streams.specs.Written.{WroteFront};

use app_modes::Failure;
use env_io::{Sink, put_all};

/// Puts the note of a failure and a line feed, as far as the notes take them; of a log that `check` finds not legal nothing.
/// It takes no memory.
pub fn tell<N: Sink>(notes: &mut N, failure: &Failure)
    ensures written { Rose (N.faults notes.old) (N.faults notes.new) ⊎ Gains (N.holds notes.old) (note_line failure.now) (N.holds notes.new) }
    ensures front { WroteFront (N.holds notes.old) (N.holds notes.new) (note_line failure.now) }
    ensures quiet { is_verdict failure.now ≡ true → notes.new ≡ notes.old }
{
    if failure.is_verdict() {
        return;
    }
    let mut line = failure.note();
    line.push(b'\n');
    let _ = put_all(notes, &line);
}
