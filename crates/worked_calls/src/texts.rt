//! Scripts and logs by their texts.
ghost use Rattle.std.specs.Prelude.{◌≡◌, ◌<◌, ◌++◌, length, IfOk, OnOk};
ghost use Rattle.log_model.specs.LogText.{head_line, log_text, total_line};
ghost use Rattle.script_model.specs.Grammar.{Reads};
ghost use Rattle.script_model.specs.Laws.Sound.{IsSound};
ghost use Rattle.task_base.specs.Plan.{Plan};

use env_io::{Failed, Sink};
use run_log::write_log;
use std::alloc::Global;
use std::str;
use std::test::Fail;
use task_base::{Entry, Rows, Script};
use task_script::read_script;

/// The script of a short text.
pub fn script_of(alloc: Global, text: &str) -> Result<Script, Fail>
    ensures reads { IfOk result (Reads text.now) }

    // So it is the script that the text computes to.
    ensures plan { (plan : Plan) → Reads text.now plan → IfOk result (λ script. script ≡ plan) }
    ensures sound { IfOk result IsSound }
{
    if text.len() >= 1000 {
        return Err(Fail::new("the text of the script is long"));
    }
    Ok(read_script(alloc, text.as_bytes())?)
}

/// Keeps all bytes that it takes. It doesn't count its failures.
#[derive(Drop)]
struct TextSink {
    text: Vec<u8>,
}

impl Sink for TextSink {
    ghost use Rattle.std.specs.Prelude.{Some, ◌-◌, ◌^◌};

    ghost holds = { λ s. Some s.text.items };

    ghost faults = { λ _. 2 ^ 64 - 1 };

    fn put(&mut self, piece: &[u8]) -> Result<usize, Failed> {
        match self.text.extend_from_slice(piece) {
            Ok(()) => Ok(piece.len()),
            Err(_) => Err(Failed),
        }
    }
}

/// The text of a short log.
fn text_of(alloc: Global, log: &Rows<Entry>) -> Result<Vec<u8>, Failed>
    requires { length log.now.items < 100 }
    ensures { IfOk result (λ text. text.items ≡ log_text log.now.items) }
{
    let mut sink = TextSink {
        text: Vec::new(alloc),
    };
    write_log(&mut sink, log)?;
    Ok(sink.text)
}

/// The bytes are this text.
pub fn assert_text(bytes: &[u8], wanted: &str) -> Result<(), Fail>
    ensures { OnOk result (bytes.now ≡ wanted.now) }
{
    if bytes == wanted.as_bytes() {
        return Ok(());
    }
    let text = str::from_utf8(bytes).unwrap_or("no text");
    Err(Fail::new(format_args!("it is {text:?}, and not {wanted:?}")))
}

/// Compares the text of a log, given the lines of its entries.
pub fn assert_log(alloc: Global, log: &Rows<Entry>, lines: &str) -> Result<(), Fail>
    ensures { OnOk result (log_text log.now.items ≡ head_line ++ (lines.now ++ total_line (length log.now.items))) }
{
    if log.len() >= 100 {
        return Err(Fail::new("the log is long"));
    }
    let written = text_of(alloc, log)?;
    let text = format!(in alloc; "taskenv log 2\n{lines}total {}\n", log.len())?;
    assert_text(&written, text.as_str())
}
