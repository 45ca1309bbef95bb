//! What a snapshot is: a machine as plain data, with the digests of its text and the number of events that it made; and its
//! bytes, as a form that is read and written exactly. The definitions are in `specs/`.
#![tactic(auto)]

ghost use Rattle.snapshot_format.specs.SnapshotLaw.{SnapshotLaw};

pub mod note_kind;
pub mod protection_number;
pub mod reader;
mod refusal;
pub mod resume;
pub mod verdict_kind;
mod whole;
pub mod writer;

pub use refusal::SnapRefusal;
pub use whole::{BLOCK_MAGIC, MAGIC_BYTES, PortKind, Snapshot, TextPage, VIRTIO_MAGIC};

/// A snapshot that has an encoding is read from its encoding, and what is read is encoded by exactly the bytes that were read.
pub fn law_snapshot()
    ensures { SnapshotLaw }
{}
