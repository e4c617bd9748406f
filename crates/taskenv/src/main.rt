//! The program: it gives `run_words` the words of its command line and the three standard streams, standard output
//! through a buffer, and ends with what it answers.
#![tactic(auto)]

ghost use Rattle.std.specs.Prelude.{◌≡◌, ◌≢◌, ◌≤◌, ◌⊎◌};
ghost use Rattle.env_io.specs.Bytes.{Rose};

use env_app::{Failure, run_words, tell};
use env_io::{OpenGate, RealClock, Sink, StdSink, StdSource};
use std::alloc::AllocError;
use std::env;
use std::io::{BufWriter, ErrorKind, Write};
use std::process::ExitCode;
use std::rt::Env;
use task_base::Fault;

/// The words of the command line, from the program's name on, and none where one of them is no text: these too are
/// words that no command has. The error is want of memory.
fn words_of<R: Env + AllocGlobal>(rt: &R) -> Result<Vec<String>, AllocError> {
    let mut words = Vec::new(rt.alloc());
    match env::args(rt) {
        Ok(all) => {
            for word in all {
                words.push(word)?;
            }
            Ok(words)
        }
        Err(error) if error.kind() == ErrorKind::OutOfMemory => Err(AllocError),
        Err(_) => Ok(words),
    }
}

/// Hands on what the output still keeps back of what was written whole, under the statuses 0 and 1, and answers the exit
/// status: that of the call, or that of a write fault, whose note goes to the notes then.
fn close<W: Write, N: Sink>(status: u8, output: &mut StdSink<W>, notes: &mut N) -> u8
    ensures status { (result ≡ status) ⊎ ((status ≤ 1) × (result ≡ 5)) }
    ensures failed { result ≢ status → Rose output.old.faults output.new.faults }
    ensures steady { result ≡ status → output.new.faults ≡ output.old.faults }
    ensures kept { 2 ≤ status → (output.new ≡ output.old) × (notes.new ≡ notes.old) }
{
    if status <= 1 && output.flush().is_err() {
        let failure = Failure::Common(Fault::WriteFault);
        tell(notes, &failure);
        return failure.status();
    }
    status
}

fn main(rt: HostRuntime) -> ExitCode {
    let no_memory = ExitCode::from(Fault::NoMemory(AllocError).status());
    let Ok(words) = words_of(&rt) else {
        return no_memory;
    };
    let Ok(output) = BufWriter::new(rt.alloc(), rt.stdout()) else {
        return no_memory;
    };
    let mut output = StdSink::new(output);
    let mut notes = StdSink::new(rt.stderr());
    let status = run_words(
        &rt,
        rt.alloc(),
        &words,
        &mut StdSource::new(rt.stdin()),
        &mut output,
        &mut notes,
        &mut RealClock::new(&rt),
        &OpenGate,
    );
    ExitCode::from(close(status, &mut output, &mut notes))
}
