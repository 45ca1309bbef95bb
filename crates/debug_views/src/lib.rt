//! What a debugger shows of a machine's state: guest memory by virtual addresses, registers, words about a hart, walks through
//! page tables, runs of pages that are guarded alike; and the target's description.
#![tactic(auto)]

pub mod description;
mod harts;
mod memory;
mod pages;
mod registers;
mod walks;

pub use harts::hart_words;
pub use memory::{push_seen_bytes, seen_address};
pub use pages::{PageRun, pages_text};
pub use registers::{ERROR, push_register, push_registers};
pub use walks::translation_text;
