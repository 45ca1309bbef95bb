// Where an access was refused.

ghost use Rattle.std.specs.Prelude.{◌≡◌, ◌%◌, Some, None, if◌then◌else◌};
ghost use Rattle.spec_processor.specs.Bytes.{in_ram};
ghost use Rattle.spec_hardware.specs.Served.{is_implicit, exit_gpa, device_gpa};
ghost use Rattle.spec_processor.specs.GStage.{htval_unit};

use hart::IMPLICIT_READ;
use host_mem::HostMem;
use spec_processor::{Exit, GUEST_ADDRESS_BITS, HTVAL_UNIT};

/// The access was an implicit read of a first-stage entry.
pub(crate) fn is_implicit(exit: &Exit) -> bool
    ensures { result ≡ is_implicit exit.now }
{
    exit.htinst == IMPLICIT_READ
}

// The two low bits of the guest-physical address of an access.
fn low_bits(exit: &Exit) -> u64
    ensures { result ≡ (if is_implicit exit.now then 0 else exit.now.stval % htval_unit) }
{
    if is_implicit(exit) {
        0
    } else {
        exit.stval % HTVAL_UNIT
    }
}

/// The guest-physical address of `width` bytes to which an access was refused, where they all lie in RAM.
pub(crate) fn gpa_in_ram(mem: &HostMem, exit: &Exit, width: u64) -> Option<u64>
    ensures { result ≡ (if in_ram mem.now.ram (exit_gpa exit.now) width then Some (exit_gpa exit.now) else None) }
{
    let _pages = mem.ram_pages();
    // (four times as much is past every place in RAM, and within 64 bits below it)
    if exit.htval >> GUEST_ADDRESS_BITS != 0 {
        return None;
    }
    let gpa = HTVAL_UNIT * exit.htval + low_bits(exit);
    mem.place_in_ram(gpa, width)?;
    Some(gpa)
}

/// The guest-physical address of an access to a device, or the last one of all where it lies beyond.
pub(crate) fn device_gpa(exit: &Exit) -> u64
    ensures { result ≡ device_gpa exit.now }
{
    exit.htval
        .saturating_mul(HTVAL_UNIT)
        .saturating_add(low_bits(exit))
}
