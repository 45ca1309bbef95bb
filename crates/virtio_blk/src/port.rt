// The device as the machine's disk.

ghost use Rattle.spec_reference.specs.States.{VirtioDisk};
ghost use Rattle.virtio_blk.specs.Held.{device_of};

use crate::Virtio;
use crate::registers::register_at;
use dma_guard::{DiskPort, DmaGuard, DmaStep};
use host_mem::HostMem;

impl DiskPort for Virtio {
    ghost state = { λ v. VirtioDisk (device_of v) };

    #[tactic(auto, unfolding(spec_reference::specs::Disk::disk_load, spec_reference::specs::VirtioRegisters::virtio_load))]
    fn load(&self, offset: u64, width: u8) -> Option<u64> {
        let register = register_at(offset, width)?;
        Some(self.read(register))
    }

    #[tactic(auto, unfolding(spec_reference::specs::Disk::disk_store, spec_reference::specs::VirtioStores::virtio_store))]
    fn store(&mut self, offset: u64, width: u8, value: u64) -> bool {
        let Some(register) = register_at(offset, width) else {
            return false;
        };
        self.put(register, (value % (1 << 32)) as u32);
        true
    }

    #[tactic(auto, unfolding(spec_reference::specs::Disk::disk_beat))]
    fn beat(&mut self, guard: &DmaGuard, mem: &mut HostMem) -> DmaStep {
        self.make_beat(guard, mem)
    }

    #[tactic(auto, unfolding(spec_reference::specs::Disk::disk_line, spec_reference::specs::VirtioRegisters::virtio_line))]
    fn line(&self) -> bool {
        self.state.interrupt != 0
    }

    #[tactic(auto, unfolding(spec_reference::specs::Disk::disk_bytes))]
    fn disk(&self) -> &[u8] {
        &self.bytes
    }
}
