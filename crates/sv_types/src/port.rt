// The device that a machine's disk is behind.

use crate::block::BlockState;
use crate::virtio::VirtioState;

/// The registers of the device that a disk is behind, with what it has under way.
#[derive(Clone, Copy, Drop)]
pub enum PortState {
    /// This project's own block device.
    Block(BlockState),
    /// A virtio block device.
    Virtio(VirtioState),
}
