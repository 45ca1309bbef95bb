// Accesses to device registers.

ghost use Rattle.std.specs.Prelude.{◌≡◌, ◌%◌, ◌<◌, length};
ghost use Rattle.spec_processor.specs.IntegerRegisters.{register_count};
ghost use Rattle.spec_processor.specs.declared.exit.ExitCause.{ExitCause};
ghost use Rattle.sv_types.specs.Limits.{max_printed};
ghost use Rattle.spec_reference.specs.Counting.{MayCount};
ghost use Rattle.spec_reference.specs.Devices.{device_load, device_store};
ghost use Rattle.spec_hardware.specs.HwHarts.{hw_device_load, hw_device_store};
ghost use Rattle.spec_hardware.specs.Machine.{Machine};
ghost use Rattle.page_guard.specs.Privileges.{mode_of};
ghost use Rattle.monitor_exits.specs.HwOfSlots.{hw_at};
ghost use Rattle.monitor_exits.specs.Accessed.{with_devices};
ghost use Rattle.spec_processor.specs.Bytes.{instruction_size};

use crate::answers::{Trap, pass, set};
use crate::slots::HartSlot;
use crate::traps::guest_trap;
use crate::values::loaded_value;
use hw_devices::Devices;
use machine_journal::Journal;
use page_guard::Entries;
use spec_hardware::{Load, Store};
use spec_processor::{Cause, ExitCause};

/// A load of a device's register, or the guest's access fault where none is there. It takes all that a trap takes, and the
/// devices.
pub fn device_load(
    hart: u8,
    slot: &mut HartSlot,
    entries: &Entries,
    devices: &mut Devices,
    journal: &mut Journal,
    load: Load,
)
    requires aligned { slot.old.hart.core.pc % instruction_size ≡ 0 }
    requires counts { MayCount journal.old.counts }
    requires register { load.rd < register_count }
    ensures machine { (m : Machine) → m.rules.entries ≡ entries.now.entries → m.rules.bound ≡ entries.now.bound →
        with_devices m hart (hw_at slot.new) devices.new journal.new ≡
        hw_device_load (with_devices m hart (hw_at slot.old) devices.old journal.old) hart (hw_at slot.old) (mode_of slot.old.privilege) load.rd
        load.address load.width load.signed (device_load devices.old load.gpa load.width) }
{
    match devices.load(load.gpa, load.width) {
        Some(value) => {
            let value = loaded_value(load.signed, load.width, value);
            set(&mut slot.hart, load.rd, value);
            journal.count_retired();
        }
        None => {
            let fault = access_fault(Cause::LoadAccess, load.address);
            guest_trap(hart, slot, entries, journal, fault);
        }
    }
}

/// A store to a device's register, or the guest's access fault where none is there. It takes all that a trap takes, and the
/// devices.
pub fn device_store(
    hart: u8,
    slot: &mut HartSlot,
    entries: &Entries,
    devices: &mut Devices,
    journal: &mut Journal,
    store: Store,
)
    requires aligned { slot.old.hart.core.pc % instruction_size ≡ 0 }
    requires counts { MayCount journal.old.counts }
    requires room { length journal.old.printed < max_printed }
    ensures machine { (m : Machine) → m.rules.entries ≡ entries.now.entries → m.rules.bound ≡ entries.now.bound →
        with_devices m hart (hw_at slot.new) devices.new journal.new ≡
        hw_device_store (with_devices m hart (hw_at slot.old) devices.old journal.old) hart (hw_at slot.old) (mode_of slot.old.privilege)
        store.address (device_store devices.old journal.old store.gpa store.width store.value) }
{
    if devices.store(journal, store.gpa, store.width, store.value) {
        pass(&mut slot.hart);
        journal.count_retired();
    } else {
        let fault = access_fault(Cause::StoreAccess, store.address);
        guest_trap(hart, slot, entries, journal, fault);
    }
}

// An access fault of the guest, with the address that `stval` takes.
fn access_fault(cause: Cause, address: u64) -> Trap
    ensures { result ≡ record { cause = ExitCause.Exception cause; tval = address } }
{
    Trap {
        cause: ExitCause::Exception(cause),
        tval: address,
    }
}
