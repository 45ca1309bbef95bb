//! A hart of hardware with the hypervisor extension: one attempt of an instruction under two stages of translation.
#![tactic(auto)]

mod cpu;
mod decode_cache;
mod execution;
mod hart;
mod interrupt_lines;
mod memory;
mod requests;
mod system;
mod trap;

pub use cpu::Cpu;
pub use decode_cache::{DecodeCache, Decoded, WORD_PLACES};
pub use hart::{Core, Hart};
pub use interrupt_lines::InterruptLines;
pub use memory::{IMPLICIT_READ, regime};
pub use spec_processor::{Outcome, Wrote};
pub use system::csr_value;
