//! The generated guest: a kernel that a user calls over and over while the disk writes over the kernel's text.
#![tactic(auto)]

mod code;
mod elf;
mod fields;
mod guest;
mod laws;

pub use code::MAX_CALLS;
pub use elf::image;
pub use guest::generate;
pub use laws::law_guest_boots;
