ghost use Rattle.std.specs.Prelude.{◌≡◌, ◌+◌, ◌≤◌, ◌++◌, [], Some, None, IfOk, IfErr, codes, decimal, length};
ghost use Rattle.task_base.specs.Plan.{opened};
ghost use Rattle.task_base.specs.declared.limits.TheConstants.{MOST_BYTES};
ghost use Rattle.script_model.specs.Laws.Sound.{IsSound};
ghost use Rattle.live_core.specs.Opening.{guest_runner};
ghost use Rattle.live_core.specs.StandsFor.{StandsFor};
ghost use Rattle.open_check.specs.Plans.{IsNoPlan, plan_fault, plan_note};

use line_text::{Line, add, add_decimal};
use live_core::{LiveCore, OpenError};
use plan_text::action_line;
use std::alloc::{AllocError, Global};
use task_base::{RunnerId, Script};

/// Why a script is not that of an open plan (this project's own).
#[derive(Clone, Copy, Debug, PartialEq, Eq)]
pub enum BadPlan {
    /// It has actions, the first of them on this line, which counts from 1.
    Action { line: u32 },
    /// The runner is bound to the last seat, the guest's, which takes nothing.
    GuestRunner { runner: RunnerId },
}

/// Why no open plan was made of a script.
#[derive(Debug, Drop)]
pub enum PlanFault {
    /// The script is not that of one.
    Bad(BadPlan),
    /// Out of memory.
    Memory(AllocError),
}

impl BadPlan {
    /// What is told of it, without a line feed. It takes no memory.
    pub fn note(&self) -> Line
        ensures note { result.items ≡ plan_note self.now }
        ensures short { length result.items ≤ 110 }
    {
        match *self {
            BadPlan::Action { line } => noted(b"bad plan: line ", line, b" is an action"),
            BadPlan::GuestRunner { runner } => {
                noted(b"bad plan: runner ", runner, b" is bound to the last seat")
            }
        }
    }
}

/// Words with a number between them.
fn noted(before: &[u8], number: u32, after: &[u8]) -> Line
    requires { length before.now + length after.now ≤ 60 }
    ensures items { result.items ≡ (before.now ++ decimal number) ++ after.now }
    ensures short { length result.items ≤ 80 }
{
    let mut note = Line::new();
    add(&mut note, before);
    add_decimal(&mut note, u64::from(number));
    add(&mut note, after);
    note
}

/// The environment of the open plan of a script, which was read from the text, before anything is done. The error is out of memory,
/// or why the script is not that of an open plan.
pub fn open_plan(alloc: Global, script: Script, text: &[u8]) -> Result<LiveCore, PlanFault>
    requires sound { IsSound script }
    requires short { length text.now ≤ MOST_BYTES }
    ensures stands { IfOk result (λ live. StandsFor (opened script) [] live) }
    ensures right { IfOk result (λ live. plan_fault script text.now ≡ None) }
    ensures bad { IfErr result (IsNoPlan script text.now) }
{
    if !script.actions.is_empty() {
        let line = action_line(text);
        return Err(PlanFault::Bad(BadPlan::Action { line }));
    }
    match LiveCore::open(alloc, script) {
        Ok(live) => Ok(live),
        Err(OpenError::OutOfMemory(error)) => Err(PlanFault::Memory(error)),
        Err(OpenError::GuestRunner { runner }) => {
            Err(PlanFault::Bad(BadPlan::GuestRunner { runner }))
        }
    }
}

/// The environment of the open plan of a script that has no runner of the guest's seat, before anything is done. The error is out of
/// memory.
pub fn core_of(alloc: Global, script: &Script) -> Result<LiveCore, AllocError>
    requires sound { IsSound script.now }
    requires guest { guest_runner script.now ≡ None }
    ensures { IfOk result (λ live. StandsFor (opened script.now) [] live) }
{
    match LiveCore::open(alloc, script.copy(alloc)?) {
        Ok(live) => Ok(live),
        Err(OpenError::OutOfMemory(error)) => Err(error),
        Err(OpenError::GuestRunner { .. }) => unreachable!(),
    }
}
