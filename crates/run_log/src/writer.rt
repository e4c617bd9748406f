ghost use Rattle.std.specs.Prelude.{◌≡◌, ◌<◌, ◌≤◌, ◌^◌, ℕ, length, take, OnOk, OnErr};
ghost use Rattle.env_io.specs.Bytes.{Gains, Rose};
ghost use Rattle.log_model.specs.LogText.{log_lines, log_text};

use crate::versions::{end_of, head_of};
use entry_lines::line;
use env_io::{Failed, Sink, put_all};
use log_model::Version;
use task_base::{Entry, Place, Rows};

/// Puts the text of the log, which is of version 2, a line at a time, each in one `put` where the sink takes whole lines.
/// It takes no memory.
///
/// `Failed`: a `put` failed. What went out before stays out.
pub fn write_log<K: Sink>(sink: &mut K, log: &Rows<Entry>) -> Result<(), Failed>
    // Places are of 32 bits.
    requires { length log.now.items < 2 ^ 32 }
    ensures written { OnOk result (Gains (K.holds sink.old) (log_text log.now.items) (K.holds sink.new)) }

    // What went out is a prefix of the text.
    ensures cut { OnErr result ((n : ℕ) × Gains (K.holds sink.old) (take n (log_text log.now.items)) (K.holds sink.new)) }
    ensures failed { OnErr result (Rose (K.faults sink.old) (K.faults sink.new)) }
    ensures steady { OnOk result (K.faults sink.new ≡ K.faults sink.old) }
    ensures faults { K.faults sink.old ≤ K.faults sink.new }
{
    put_all(sink, head_of(Version::Two))?;
    put_lines(sink, log)?;
    put_all(sink, &end_of(Version::Two, log.len() as Place))
}

// Puts the lines of the entries.
fn put_lines<K: Sink>(sink: &mut K, log: &Rows<Entry>) -> Result<(), Failed>
    requires { length log.now.items < 2 ^ 32 }
    ensures written { OnOk result (Gains (K.holds sink.old) (log_lines log.now.items) (K.holds sink.new)) }
    ensures cut { OnErr result ((n : ℕ) × Gains (K.holds sink.old) (take n (log_lines log.now.items)) (K.holds sink.new)) }
    ensures failed { OnErr result (Rose (K.faults sink.old) (K.faults sink.new)) }
    ensures steady { OnOk result (K.faults sink.new ≡ K.faults sink.old) }
    ensures faults { K.faults sink.old ≤ K.faults sink.new }
{
    for (place, entry) in log.as_slice().iter().enumerate() {
        put_all(sink, &line(place as Place, entry))?;
    }
    Ok(())
}
