// All harts, each with the side that it is on.

ghost use Rattle.std.specs.Prelude.{◌≡◌, length, map, if◌then◌else◌};
ghost use Rattle.spec_processor.specs.HypervisorRegisters.{virtual_software_bit};
ghost use Rattle.spec_reference.specs.Calls.{mask_names};
ghost use Rattle.spec_hardware.specs.Machine.{forgets};
ghost use Rattle.spec_hardware.specs.HardwareEvent.{interrupted_hw_harts};
ghost use Rattle.monitor_exits.specs.HwOfSlots.{hw_harts_of};
ghost use Rattle.monitor_exits.specs.Slots.{slot_after_write, slot_with_software};

use csr_file::{Csrs, VIRTUAL_SOFTWARE};
use hart::Hart;
use page_guard::PrivilegeView;
use spec_processor::has_bit;

/// The base that names all harts, whatever the mask is.
pub const ALL_HARTS: u64 = u64::MAX;

/// The bits of a mask of harts.
pub const MASK_WIDTH: u8 = 64;

/// A hart and the side that it is on.
#[derive(Drop)]
pub struct HartSlot {
    pub hart: Hart,
    pub privilege: PrivilegeView,
}

/// Clears each reservation of which some bytes are among the `width` bytes from a host place on.
#[tactic(auto, using(crate::proofs::Changes::changed_one_by_one, crate::proofs::Changes::all_forgotten))]
pub fn forget(slots: &mut [HartSlot], hpa: u64, width: u64)
    ensures hw_all { hw_harts_of slots.new ≡ map (forgets hpa width) (hw_harts_of slots.old) }
    ensures number { length slots.new ≡ length slots.old }
{
    for slot in slots.iter_mut() {
        forget_one(slot, hpa, width);
    }
}

fn forget_one(slot: &mut HartSlot, hpa: u64, width: u64)
    ensures { slot.new ≡ slot_after_write hpa width slot.old }
{
    slot.hart.core.forget(hpa, width);
}

/// Sends a software interrupt to each hart that a mask and a base name.
#[tactic(auto, using(crate::proofs::Changes::changed_one_by_one, crate::proofs::Changes::all_notified))]
pub fn interrupt(slots: &mut [HartSlot], mask: u64, base: u64)
    ensures hw_all { hw_harts_of slots.new ≡ interrupted_hw_harts (mask_names mask base) 0 (hw_harts_of slots.old) }
    ensures number { length slots.new ≡ length slots.old }
{
    for i in 0..slots.len() {
        let named = is_named(mask, base, i as u64);
        notify(&mut slots[i], named);
    }
}

fn notify(slot: &mut HartSlot, named: bool)
    ensures { slot.new ≡ (if named then slot_with_software slot.old else slot.old) }
{
    if named {
        set_software(&mut slot.hart.core.csrs);
    }
}

fn set_software(csrs: &mut Csrs)
    ensures { csrs.new ≡ record csrs.old { hvip = virtual_software_bit } }
{
    csrs.hvip = VIRTUAL_SOFTWARE;
}

// Whether a mask and a base name a hart: the hart base + i for each bit i of the mask, or all of them.
#[tactic(auto, unfolding(spec_reference::specs::Calls::mask_names))]
fn is_named(mask: u64, base: u64, hart: u64) -> bool
    ensures { result ≡ mask_names mask base hart }
{
    if base == ALL_HARTS {
        return true;
    }
    base <= hart && hart - base < u64::from(MASK_WIDTH) && has_bit(mask, (hart - base) as u8)
}
