ghost use Rattle.std.specs.Prelude.{◌≡◌, IfOk};
ghost use Rattle.script_model.specs.Canonical.{canonical};

use env_io::{Failed, Sink};
use script_text::write_script;
use std::alloc::{AllocError, Global};
use task_base::Script;

/// Keeps all bytes that it takes. It doesn't count its failures.
#[derive(Drop)]
struct TextSink {
    text: Vec<u8>,
}

impl Sink for TextSink {
    ghost use Rattle.std.specs.Prelude.{Some, ◌-◌, ◌^◌};

    ghost holds = { λ s. Some s.text.items };

    ghost faults = { λ _. 2 ^ 64 - 1 };

    fn put(&mut self, piece: &[u8]) -> Result<usize, Failed> {
        match self.text.extend_from_slice(piece) {
            Ok(()) => Ok(piece.len()),
            Err(_) => Err(Failed),
        }
    }
}

/// The canonical text of a script.
pub(crate) fn text_of(alloc: Global, script: &Script) -> Result<Vec<u8>, AllocError>
    ensures { IfOk result (λ text. text.items ≡ canonical script.now) }
{
    let mut sink = TextSink {
        text: Vec::new(alloc),
    };
    match write_script(&mut sink, script) {
        Ok(()) => Ok(sink.text),
        Err(Failed) => Err(AllocError),
    }
}
