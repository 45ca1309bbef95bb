// The device that a machine's disk is behind, of one of two kinds.

ghost use Rattle.std.specs.Prelude.{◌≡◌, ◌%◌, length};
ghost use Rattle.spec_reference.specs.BlockDisk.{sector_size};
ghost use Rattle.spec_reference.specs.Disk.{disk_bytes};
ghost use Rattle.spec_reference.specs.Start.{block_disk, virtio_disk};
ghost use Rattle.spec_reference.specs.SavedStates.{disk_of};
ghost use Rattle.hw_devices.specs.Ports.{IsSoundPort, port_disk};

use crate::block::Block;
use dma_guard::{DiskPort, DmaGuard, DmaStep};
use host_mem::HostMem;
use sv_types::PortState;
use virtio_blk::Virtio;

/// A device with its disk.
#[derive(Drop)]
pub enum Port {
    /// This project's own block device.
    Block(Block),
    /// A virtio block device.
    Virtio(Virtio),
}

impl Port {
    /// A disk in whole sectors, after an idle block device.
    pub fn block(disk: Vec<u8>) -> Port
        requires sectors { length disk.items % sector_size ≡ 0 }
        ensures { port_disk result ≡ block_disk disk.items }
    {
        Port::Block(Block::new(disk))
    }

    /// A disk in whole sectors, behind a virtio block device after its reset.
    pub fn virtio(disk: Vec<u8>) -> Port
        requires sectors { length disk.items % sector_size ≡ 0 }
        ensures { port_disk result ≡ virtio_disk disk.items }
    {
        Port::Virtio(Virtio::new(disk))
    }

    /// A disk behind a device that goes on as its plain data says.
    pub fn from_state(state: PortState, disk: Vec<u8>) -> Port
        requires sound { IsSoundPort state disk.items }
        ensures { port_disk result ≡ disk_of state disk.items }
    {
        match state {
            PortState::Block(block) => Port::Block(Block::from_state(block, disk)),
            PortState::Virtio(virtio) => Port::Virtio(Virtio::from_state(virtio, disk)),
        }
    }

    /// The device's registers and what it has under way, as plain data.
    #[tactic(auto, unfolding(spec_reference::specs::Disk::disk_bytes))]
    pub fn state(&self) -> PortState
        ensures value { disk_of result (disk_bytes (port_disk self.now)) ≡ port_disk self.now }
        ensures sound { IsSoundPort result (disk_bytes (port_disk self.now)) }
    {
        match self {
            Port::Block(device) => PortState::Block(device.state()),
            Port::Virtio(device) => PortState::Virtio(device.state()),
        }
    }
}

impl DiskPort for Port {
    ghost state = { λ p. port_disk p };

    fn load(&self, offset: u64, width: u8) -> Option<u64> {
        match self {
            Port::Block(device) => device.load(offset, width),
            Port::Virtio(device) => device.load(offset, width),
        }
    }

    fn store(&mut self, offset: u64, width: u8, value: u64) -> bool {
        match self {
            Port::Block(device) => device.store(offset, width, value),
            Port::Virtio(device) => device.store(offset, width, value),
        }
    }

    fn beat(&mut self, guard: &DmaGuard, mem: &mut HostMem) -> DmaStep {
        match self {
            Port::Block(device) => device.beat(guard, mem),
            Port::Virtio(device) => device.beat(guard, mem),
        }
    }

    fn line(&self) -> bool {
        match self {
            Port::Block(device) => device.line(),
            Port::Virtio(device) => device.line(),
        }
    }

    fn disk(&self) -> &[u8] {
        match self {
            Port::Block(device) => device.disk(),
            Port::Virtio(device) => device.disk(),
        }
    }
}
