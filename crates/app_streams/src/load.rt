ghost use Rattle.std.specs.Prelude.{◌≡◌, ◌≢◌, ◌≤◌, Err, IfOk, IfErr, length};
ghost use Rattle.task_base.specs.declared.limits.TheConstants.{MOST_BYTES};
ghost use Rattle.script_model.specs.Grammar.{Reads};
ghost use Rattle.script_model.specs.Laws.Sound.{IsSound};
ghost use Rattle.app_streams.specs.Ends.{ends};
ghost use Rattle.app_streams.specs.Taken.{IsNoScript, IsNotTaken, TookAll, TookMore, TookWithin};

use crate::input::{InputFault, read_input};
use env_io::Source;
use std::alloc::Global;
use task_base::{Fault, Script};
use task_script::{ScriptFault, read_script};

/// Takes the bytes of a source, to its end. `ReadFault` says that the source failed, and `TooLarge` that more than
/// `MOST_BYTES` bytes came.
pub fn take_all<S: Source>(alloc: Global, source: &mut S) -> Result<Vec<u8>, Fault>
    ensures whole { IfOk result (λ bytes. TookAll (ends (S.left source.old) (S.left source.new) (S.faults source.old) (S.faults source.new)) bytes.items) }
    ensures failed { IfErr result (IsNotTaken (ends (S.left source.old) (S.left source.new) (S.faults source.old) (S.faults source.new))) }
    ensures took_more { result ≡ Err Fault.TooLarge → TookMore (ends (S.left source.old) (S.left source.new) (S.faults source.old) (S.faults source.new)) }
    ensures took_within { result ≢ Err Fault.TooLarge → TookWithin (ends (S.left source.old) (S.left source.new) (S.faults source.old) (S.faults source.new)) }
    ensures steady { result ≢ Err Fault.ReadFault → S.faults source.new ≡ S.faults source.old }
{
    match read_input(alloc, source) {
        Ok(bytes) => Ok(bytes),
        Err(InputFault::Read) => Err(Fault::ReadFault),
        Err(InputFault::Memory(error)) => Err(Fault::NoMemory(error)),
        Err(InputFault::TooLarge) => Err(Fault::TooLarge),
    }
}

/// Reads a script. `BadScript` has the first bad line, which counts from 1, and its first reason.
pub fn script_of(alloc: Global, bytes: &[u8]) -> Result<Script, Fault>
    requires { length bytes.now ≤ MOST_BYTES }
    ensures read { IfOk result (λ script. Reads bytes.now script) }
    ensures sound { IfOk result IsSound }
    ensures bad { IfErr result (IsNoScript bytes.now) }
{
    match read_script(alloc, bytes) {
        Ok(script) => Ok(script),
        Err(ScriptFault::Bad { line, reason }) => Err(Fault::BadScript { line, reason }),
        Err(ScriptFault::Memory(error)) => Err(Fault::NoMemory(error)),
    }
}
