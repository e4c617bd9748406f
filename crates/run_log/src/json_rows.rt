ghost use Rattle.std.specs.Prelude.{◌≡◌, string_bytes, IfOk};
ghost use Rattle.serde_json.specs.View.{view};
ghost use Rattle.log_model.specs.LogText.{json_of};
ghost use Rattle.entry_lines.specs.Parts.{said};
ghost use Rattle.run_log.specs.JsonRows.{data_of};

use entry_lines::{Part, parts_of};
use serde_json::Value;
use std::alloc::{AllocError, Global};
use task_base::Entry;

/// The entry in JSON: an array of its place, its seat, the word of its kind and the arguments, numbers as numbers and
/// words as strings. The error is want of memory.
#[tactic(auto, using(std::proofs::lemmas::List::map_push))]
pub fn json_row(alloc: Global, place: u64, entry: &Entry) -> Result<String, AllocError>
    ensures { IfOk result (λ text. string_bytes text ≡ json_of place entry.now) }
{
    let mut row = Vec::new(alloc);
    row.push(Value::from(place))?;
    row.push(Value::from(entry.seat))?;
    for part in parts_of(&entry.kind).as_slice() {
        row.push(value_of(alloc, part)?)?;
    }
    Value::Array(row).to_string(alloc)
}

// A part in JSON: a word is a string.
fn value_of(alloc: Global, part: &Part) -> Result<Value, AllocError>
    ensures { IfOk result (λ value. view value ≡ data_of (said part.now)) }
{
    match *part {
        Part::Word(word) => Value::try_from_str(alloc, word),
        Part::Number(number) => Ok(Value::from(number)),
    }
}
