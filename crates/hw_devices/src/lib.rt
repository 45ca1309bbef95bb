//! The devices behind one bus: the console, the clock, and the device that a machine's disk is behind, of one of two kinds.
#![tactic(auto)]

mod block;
mod bus;
mod clock;
mod console;
mod disk_port;
mod ports;

pub use block::Block;
pub use bus::Devices;
pub use clock::NEVER;
pub use disk_port::Port;
pub use sv_types::SECTOR_BYTES;
