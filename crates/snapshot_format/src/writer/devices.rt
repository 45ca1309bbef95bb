// The bytes of the devices: the console's input, the device that the disk is behind, and the disk.

ghost use Rattle.std.specs.Prelude.{◌≡◌, ◌++◌, true, OnOk};
ghost use Rattle.snapshot_format.specs.DeviceForms.{console, devices, disk, kind_of, port};
ghost use Rattle.snapshot_format.specs.Typed.{is_typed_port};

use crate::writer::block::write_block;
use crate::writer::values::write_measured;
use crate::writer::virtio::write_virtio;
use spec_reference::saved_machine::Saved;
use std::alloc::AllocError;
use sv_types::PortState;

#[tactic(auto, unfolding(crate::specs::DeviceForms::devices, crate::specs::DeviceForms::console, crate::specs::DeviceForms::disk))]
pub(crate) fn write_devices(out: &mut Vec<u8>, machine: &Saved) -> Result<(), AllocError>
    ensures encoded { OnOk result (out.new.items ≡
        out.old.items ++ (devices (kind_of machine.now.port)).encode (machine.now.console.items, (machine.now.port, machine.now.disk.items))) }
    ensures typed { OnOk result (is_typed_port machine.now.port ≡ true) }
{
    write_measured(out, &machine.console)?;
    write_port(out, &machine.port)?;
    write_measured(out, &machine.disk)
}

#[tactic(auto, unfolding(crate::specs::DeviceForms::port))]
fn write_port(out: &mut Vec<u8>, state: &PortState) -> Result<(), AllocError>
    ensures encoded { OnOk result (out.new.items ≡ out.old.items ++ (port (kind_of state.now)).encode state.now) }
    ensures typed { OnOk result (is_typed_port state.now ≡ true) }
{
    match state {
        PortState::Block(block) => write_block(out, block),
        PortState::Virtio(virtio) => write_virtio(out, virtio),
    }
}
