// One hart of all changed in its place.

ghost use Rattle.std.specs.Prelude.{◌≡◌, ◌<◌, length};
ghost use Rattle.spec_hardware.specs.HwHarts.{hw_started};
ghost use Rattle.spec_hardware.specs.HwCalls.{hw_replied};
ghost use Rattle.spec_hardware.specs.Machine.{update};
ghost use Rattle.monitor_exits.specs.HwOfSlots.{hw_at, hw_harts_of};

use crate::{HartSlot, answer, set, start, stay, stop};
use hart::Hart;
use spec_processor::A0;
use spec_reference::Reply;

// What becomes of the hart that called.
#[tactic(auto, unfolding(spec_hardware::specs::HwCalls::hw_replied))]
fn reply_to(slot: &mut HartSlot, reply: Reply)
    ensures { hw_at slot.new ≡ hw_replied reply (hw_at slot.old) }
{
    match reply {
        Reply::Gives { a0 } => set(&mut slot.hart, A0, a0),
        Reply::Replies { a0, a1 } => answer(&mut slot.hart, a0, a1),
        Reply::Stays => stay(&mut slot.hart),
        Reply::Stops => stop(&mut slot.hart, &mut slot.privilege),
    }
}

/// The hart that called gets its reply.
#[tactic(auto, using(crate::proofs::Changed::slot_changed))]
pub fn reply_at(slots: &mut [HartSlot], hart: u8, reply: Reply)
    requires there { hart < length slots.old }
    ensures hw_all { hw_harts_of slots.new ≡ update (hw_harts_of slots.old) hart (hw_replied reply) }
    ensures number { length slots.new ≡ length slots.old }
{
    let slot = &mut slots[usize::from(hart)];
    reply_to(slot, reply);
}

/// The hart begins in kernel mode at an address, with its number and a value.
#[tactic(auto, using(crate::proofs::Changed::slot_changed))]
pub fn start_at(slots: &mut [HartSlot], hart: u8, pc: u64, opaque: u64)
    requires there { hart < length slots.old }
    ensures hw_all { hw_harts_of slots.new ≡ update (hw_harts_of slots.old) hart (hw_started hart pc opaque) }
    ensures number { length slots.new ≡ length slots.old }
{
    let slot = &mut slots[usize::from(hart)];
    start(&mut slot.hart, &mut slot.privilege, hart, pc, opaque);
}
