// A machine between two events, as a file keeps it.

ghost use Rattle.std.specs.Prelude.{◌≡◌};
ghost use Rattle.snapshot_format.specs.DeviceForms.{kind_of};

use spec_reference::saved_machine::Saved;
use sv_types::{Digest, PortState};

/// The first bytes of a snapshot.
pub const MAGIC_BYTES: usize = 8;

/// Those of a machine with this project's own block device.
pub const BLOCK_MAGIC: &[u8; MAGIC_BYTES] = b"SVSNAP01";

/// Those of a machine with a virtio block device.
pub const VIRTIO_MAGIC: &[u8; MAGIC_BYTES] = b"SVSNAP02";

/// The device that a machine's disk is behind.
#[derive(Clone, Copy, Drop)]
pub enum PortKind {
    /// This project's own block device.
    Block,
    /// A virtio block device.
    Virtio,
}

impl PortKind {
    /// The kind of a device.
    pub fn of(port: &PortState) -> PortKind
        ensures { result ≡ kind_of port.now }
    {
        match port {
            PortState::Block(_) => PortKind::Block,
            PortState::Virtio(_) => PortKind::Virtio,
        }
    }
}

/// A page of the kernel's text, and the SHA-256 of the bytes that it was approved with.
#[derive(Clone, Copy, Drop)]
pub struct TextPage {
    pub page: u32,
    pub digest: Digest,
}

/// A machine, with what its state alone doesn't tell.
#[derive(Drop)]
pub struct Snapshot {
    /// The events that were made while the machine ran.
    pub events: u64,
    pub machine: Saved,
    /// The pages of the kernel's text, ascending.
    pub text: Vec<TextPage>,
}
