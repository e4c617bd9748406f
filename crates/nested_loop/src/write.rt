ghost use Rattle.std.specs.Prelude.{◌≡◌, ◌≤◌, ℕ, take, OnOk, OnErr};
ghost use Rattle.env_io.specs.Bytes.{Gains, Rose};
ghost use Rattle.nested_loop.specs.NestText.{nest_text};

use crate::event::Event;
use crate::text::event_line;
use env_io::{Failed, Sink, put_all};
use task_base::Rows;

/// Puts the text of the log, a line at a time, each in one `put` where the sink takes whole lines. It takes no
/// memory.
///
/// `Failed`: a `put` failed. What went out before stays out.
pub fn write_nest<K: Sink>(sink: &mut K, log: &Rows<Event>) -> Result<(), Failed>
    ensures written { OnOk result (Gains (K.holds sink.old) (nest_text log.now.items) (K.holds sink.new)) }

    // What went out is a prefix of the text.
    ensures cut { OnErr result ((n : ℕ) × Gains (K.holds sink.old) (take n (nest_text log.now.items)) (K.holds sink.new)) }
    ensures failed { OnErr result (Rose (K.faults sink.old) (K.faults sink.new)) }
    ensures steady { OnOk result (K.faults sink.new ≡ K.faults sink.old) }
    ensures faults { K.faults sink.old ≤ K.faults sink.new }
{
    for (place, event) in log.as_slice().iter().enumerate() {
        put_all(sink, &event_line(place as u64, event))?;
    }
    Ok(())
}
