// The snapshot that some bytes are: what is read is encoded so, as `snapshot_format` defines it.

mod block;
mod counts;
mod devices;
mod harts;
mod journal;
mod modules;
mod notes;
mod pages;
mod read_error;
mod row;
mod supervisor;
mod values;
mod verdict;
mod virtio;
mod whole;

pub use read_error::ReadError;
pub use whole::{MAX_SNAPSHOT_BYTES, read};
