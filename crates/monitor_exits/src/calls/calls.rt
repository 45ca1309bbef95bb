// What an answer does: to the hart that called, to other harts, to devices and to the journal.

ghost use Rattle.std.specs.Prelude.{◌≡◌, ◌<◌, ◌≤◌, length};
ghost use Rattle.sv_types.specs.Limits.{max_harts, max_printed};
ghost use Rattle.spec_reference.specs.Answers.{devices_side_effect, journal_side_effect};
ghost use Rattle.spec_reference.specs.Counting.{MayCount};
ghost use Rattle.spec_hardware.specs.HwCalls.{hw_replied, hw_harts_side_effect};
ghost use Rattle.spec_hardware.specs.Machine.{update};
ghost use Rattle.monitor_exits.specs.HwOfSlots.{hw_harts_of};
ghost use Rattle.monitor_exits.specs.Known.{StartsOneOf};

use crate::calls::places::{reply_at, start_at};
use crate::{HartSlot, interrupt};
use hw_devices::{Devices, NEVER};
use machine_journal::Journal;
use spec_reference::{Answer, SideEffect};

// What happens to other harts; the hart that called may be among those that are interrupted.
#[tactic(auto, using(crate::proofs::HwOfSlots::hw_harts_length), unfolding(spec_hardware::specs::HwCalls::hw_harts_side_effect))]
fn change_harts(slots: &mut [HartSlot], side_effect: SideEffect)
    requires starts { StartsOneOf (length slots.old) side_effect }
    ensures hw_all { hw_harts_of slots.new ≡ hw_harts_side_effect side_effect (hw_harts_of slots.old) }
    ensures number { length slots.new ≡ length slots.old }
{
    match side_effect {
        SideEffect::SendsInterrupts { mask, base } => interrupt(slots, mask, base),
        SideEffect::StartsHart { other, pc, opaque } => start_at(slots, other, pc, opaque),
        _ => {}
    }
}

// What happens to devices.
#[tactic(auto, unfolding(spec_reference::specs::Answers::devices_side_effect))]
fn change_devices(hart: u8, devices: &mut Devices, side_effect: SideEffect)
    requires there { hart < max_harts }
    requires starts { StartsOneOf max_harts side_effect }
    ensures { devices.new ≡ devices_side_effect side_effect hart devices.old }
{
    match side_effect {
        SideEffect::SetsTimer { at } => devices.set_timer(hart, at),
        SideEffect::StartsHart {
            other,
            pc: _,
            opaque: _,
        } => devices.set_timer(other, NEVER),
        SideEffect::TakesInput => {
            devices.take_input();
        }
        _ => {}
    }
}

/// Does what an answer says, but to pages and modules: what becomes of the hart that called, and what happens besides to other
/// harts, to devices and in the journal.
#[tactic(auto, using(crate::proofs::Starting::fewer))]
pub fn give(
    hart: u8,
    slots: &mut [HartSlot],
    devices: &mut Devices,
    journal: &mut Journal,
    answer: &Answer,
)
    requires there { hart < length slots.old }
    requires few { length slots.old ≤ max_harts }
    requires room { length journal.old.printed < max_printed }
    requires counts { MayCount journal.old.counts }
    requires starts { StartsOneOf (length slots.old) answer.now.side_effect }
    ensures hw_all { hw_harts_of slots.new ≡ hw_harts_side_effect answer.now.side_effect (update (hw_harts_of slots.old) hart (hw_replied answer.now.reply)) }
    ensures devices { devices.new ≡ devices_side_effect answer.now.side_effect hart devices.old }
    ensures journal { journal.new ≡ journal_side_effect answer.now.side_effect hart journal.old }
    ensures number { length slots.new ≡ length slots.old }
{
    let Answer { reply, side_effect } = *answer;
    reply_at(slots, hart, reply);
    change_harts(slots, side_effect);
    change_devices(hart, devices, side_effect);
    journal.record(hart, side_effect);
}
