//! What a fault prints.
use crate::texts::assert_text;
use std::alloc::{AllocError, Global};
use std::test::Fail;
use task_base::Fault;

/// A fault prints this note.
fn assert_note(alloc: Global, fault: &Fault, note: &str) -> Result<(), Fail> {
    let shown = format!(in alloc; "{fault}")?;
    assert_text(shown.as_bytes(), note)
}

#[test]
fn a_fault_prints_its_note(rt: HostRuntime) -> Result<(), Fail> {
    for (fault, note) in [
        (Fault::NotLegal { line: 3 }, "not legal: line 3"),
        (Fault::BadWords, "bad words"),
        (
            Fault::BadScript { line: 4, reason: 9 },
            "bad script: line 4: reason 9 DeclarationLate",
        ),
        (Fault::ReadFault, "read fault"),
        (Fault::WriteFault, "write fault"),
        (Fault::NoMemory(AllocError), "no memory"),
        (Fault::TooLarge, "too large"),
    ] {
        assert_note(rt.alloc(), &fault, note)?;
    }
    Ok(())
}
