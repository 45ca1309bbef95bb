// Which device lies where.
ghost use Rattle.std.specs.Prelude.{◌≡◌};
ghost use Rattle.spec_reference.specs.Devices.{port_at};
ghost use Rattle.hw_devices.specs.Bus.{port_named};

use sv_types::{CONSOLE_BASE, DISK_BASE, DISK_END};

/// A device and an offset in its registers.
#[derive(Clone, Copy, Drop)]
pub enum Place {
    /// The console's registers.
    Console(u64),
    /// The block device's registers.
    Disk(u64),
    /// No device.
    Nowhere,
}

/// The device at a guest-physical address.
#[tactic(auto, unfolding(spec_reference::specs::Devices::port_at))]
pub fn place_at(gpa: u64) -> Place
    ensures { port_named result ≡ port_at gpa }
{
    if gpa < CONSOLE_BASE {
        Place::Nowhere
    } else if gpa < DISK_BASE {
        Place::Console(gpa - CONSOLE_BASE)
    } else if gpa < DISK_END {
        Place::Disk(gpa - DISK_BASE)
    } else {
        Place::Nowhere
    }
}
