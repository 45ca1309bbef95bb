// The devices of a machine that goes on.

ghost use Rattle.std.specs.Prelude.{◌≡◌, ◌+◌, ◌++◌, ◌≤◌, length, slice_get, true};
ghost use Rattle.sv_types.specs.Console.{max_queued};
ghost use Rattle.sv_types.specs.Limits.{max_harts};
ghost use Rattle.spec_reference.specs.SavedStates.{disk_of};
ghost use Rattle.snapshot_format.specs.DeviceForms as form;
ghost use Rattle.hw_devices.specs.Ports.{port_disk};
ghost use Rattle.snapshot_format.specs.ResumedStates.{timers_of};
ghost use Rattle.machine.specs.Timing.{timer_in};

use hw_devices::{Devices, NEVER, Port};
use spec_reference::saved_machine::SavedHart;
use sv_types::{MAX_HARTS, PortState};

/// The devices as a snapshot has them: its port with the disk, the input that waits, the time, and the timers of its harts. No
/// other hart has a timer set.
pub fn devices_of(
    port: PortState,
    disk: Vec<u8>,
    input: &[u8],
    time: u64,
    harts: &[SavedHart],
) -> Devices
    requires form { (form.devices (form.kind_of port)).has (input.now, (port, disk.items)) ≡ true }
    requires few { length harts.now ≤ max_harts }
    ensures { result ≡ record { console = input.now; disk = disk_of port disk.items; clock = record { time = time; timers = timers_of harts.now } } }
{
    let mut devices = Devices::from_values(port_of(port, disk), time, timers_of(harts));
    put_input(&mut devices, input);
    devices
}

// The device with its disk, as a snapshot has them.
fn port_of(port: PortState, disk: Vec<u8>) -> Port
    requires port { (form.port (form.kind_of port)).has port ≡ true }
    requires disk { (form.disk port).has disk.items ≡ true }
    ensures { port_disk result ≡ disk_of port disk.items }
{
    Port::from_state(port, disk)
}

// Puts bytes of input after those that wait.
fn put_input(devices: &mut Devices, input: &[u8])
    requires room { length devices.old.console + length input.now ≤ max_queued }
    ensures { devices.new ≡ record devices.old { console = devices.old.console ++ input.now } }
{
    'keys: for byte in input {
        let _taken = devices.key(*byte);
    }
}

// ---- timers

#[tactic(auto, using(crate::proofs::DeviceParts::timers_are))]
fn timers_of(harts: &[SavedHart]) -> [u64; MAX_HARTS as usize]
    requires { length harts.now ≤ max_harts }
    ensures { result ≡ timers_of harts.now }
{
    [
        timer_at(harts, 0),
        timer_at(harts, 1),
        timer_at(harts, 2),
        timer_at(harts, 3),
    ]
}

// The timer of a hart; that of one that isn't there never is due.
fn timer_at(harts: &[SavedHart], hart_index: usize) -> u64
    ensures { result ≡ timer_in (slice_get harts.now hart_index) }
{
    match harts.get(hart_index) {
        Some(hart) => hart.timer,
        None => NEVER,
    }
}
