//! Kernel images: ELF-64 files whose segments are loaded into guest RAM.
#![tactic(auto)]

mod checks;
mod exports;
mod headers;
mod image;
mod laws;
mod read;
pub mod sections;
mod shared_text;
pub mod symbols;
mod whole_text;

pub use exports::read_exports;
pub use image::{KernelImage, Segment};
pub use laws::law_text_in_ram;
pub use read::{ElfRefusal, read_kernel};
