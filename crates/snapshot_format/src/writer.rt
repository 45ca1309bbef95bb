// The bytes of a snapshot: what is written is its encoding, as `snapshot_format` defines it.

mod block;
mod counts;
mod devices;
mod harts;
mod journal;
mod modules;
mod notes;
mod pages;
mod supervisor;
mod values;
mod verdict;
mod virtio;
mod whole;

pub use whole::write;
