// What a block device is to the machine.
ghost use Rattle.std.specs.Prelude.{◌≡◌, is_some, unwrap_or};
ghost use Rattle.spec_reference.specs.States.{Disk};
ghost use Rattle.spec_reference.specs.Disk.{is_writable, disk_bytes, disk_load, disk_store, disk_beat, disk_line};
ghost use Rattle.dma_guard.specs.Transfers.{beat_of, after_move};

use crate::DmaGuard;
use host_mem::HostMem;

/// What a beat did, or a write of an attacker's device.
#[derive(Clone, Copy, PartialEq, Eq, Drop)]
pub enum DmaStep {
    /// Nothing: no transfer is under way.
    Idle,
    /// It moved bytes out of RAM.
    Read { gpa: u64 },
    /// It wrote so many bytes of RAM from this guest-physical address on.
    Wrote { gpa: u64, len: u32 },
    /// Nothing: the page at this address is protected, and the transfer has ended.
    Denied { gpa: u64 },
    /// Nothing: no RAM is there, and the transfer has ended.
    Range,
}

/// A block device behind its registers, its interrupt line and its beats. Contracts see its registers and its disk.
pub trait DiskPort {
    /// The device as plain data.
    ghost state: { Self → Disk };

    /// A load of `width` bytes at an offset. None where no register has that offset and width.
    fn load(&self, offset: u64, width: u8) -> Option<u64>
        ensures { result ≡ disk_load (state self.now) offset width };

    /// A store of `width` bytes at an offset. False where no register has that offset and width; then nothing changes.
    fn store(&mut self, offset: u64, width: u8, value: u64) -> bool
        ensures found { result ≡ is_some (disk_store (state self.old) offset width value) }
        ensures device { state self.new ≡ unwrap_or (disk_store (state self.old) offset width value) (state self.old) };

    /// One beat of the transfer under way, if there is one. It writes RAM through the guard alone.
    fn beat(&mut self, guard: &DmaGuard, mem: &mut HostMem) -> DmaStep
        ensures device { state self.new ≡ (disk_beat (state self.old) mem.old.ram (is_writable guard.now)).disk }
        ensures told { result ≡ beat_of (disk_beat (state self.old) mem.old.ram (is_writable guard.now)).move }
        ensures memory { mem.new ≡ after_move mem.old (disk_beat (state self.old) mem.old.ram (is_writable guard.now)).move };

    /// Whether a transfer has ended, which sets the interrupt line.
    fn line(&self) -> bool
        ensures { result ≡ disk_line (state self.now) };

    /// The bytes of the disk.
    fn disk(&self) -> &[u8]
        ensures { result.now ≡ disk_bytes (state self.now) };
}
