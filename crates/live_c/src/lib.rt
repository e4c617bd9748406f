//! A live environment for C: it lies in memory that C hands in. `clients/c/taskenv.h` declares what is offered.
#![tactic(auto)]

ghost use Rattle.std.specs.Prelude.{◌≡◌};
ghost use types.Logic.{sem};
ghost use Rattle.std.specs.Borrow.{full_share};
ghost use Rattle.std.specs.Ptr.{lies_at, room_at};
ghost use Rattle.std.specs.Mem.{type_size};
ghost use Rattle.live_request.specs.Slots.{IsCalled, IsSlotOpened, Stands};
ghost use Rattle.live_request.specs.contracts.slot.Slot.{the_row};
ghost use Rattle.live_request.specs.declared.slot.Slot.{Slot};

use live_request::{Answer, Opened, Request, Slot};
use std::alloc::Global;
use std::mem::size_of;

/// How many bytes of memory C is to hand in; more is asked for as a plan is opened.
#[unsafe(no_mangle)]
pub extern "C" fn live_size() -> usize
    ensures { result ≡ type_size the_row }
{
    size_of::<Slot>()
}

/// The environment of a plan lies in the memory from then on, or none where the plan is refused. Answers the reason.
#[unsafe(no_mangle)]
pub unsafe extern "C" fn live_open(
    alloc: Global,
    room: *mut u8,
    plan: &[u8],
    opened: &mut Opened,
) -> u32
    requires* { sem 𝓛 (room_at the_row room) }
    ensures* { ∃ₛ (λ (slot : Slot). sem 𝓛 (lies_at the_row full_share room slot) ∗ ⌜ IsSlotOpened plan.now slot opened.new result ⌝) }
{
    let slot = room as *mut Slot;
    slot.write(Slot::empty());
    Slot::open(&mut *slot, alloc, plan, opened)
}

/// One request.
#[unsafe(no_mangle)]
pub unsafe extern "C" fn live_call(core: *mut u8, request: &Request, answer: &mut Answer)
    ghost before: { Slot }
    requires* lies { sem 𝓛 (lies_at the_row full_share core before) }
    requires stands { Stands before }
    ensures* { ∃ₛ (λ (after : Slot). sem 𝓛 (lies_at the_row full_share core after) ∗ ⌜ IsCalled request.now before after answer.new ⌝) }
{
    Slot::call(&mut *(core as *mut Slot), request, answer)
}

/// The environment ends, and gives its memory back; the memory that C handed in is room again.
#[unsafe(no_mangle)]
pub unsafe extern "C" fn live_close(core: *mut u8)
    ghost before: { Slot }
    requires* { sem 𝓛 (lies_at the_row full_share core before) }
    ensures* { sem 𝓛 (room_at the_row core) }
{
    Slot::close((core as *mut Slot).read())
}
