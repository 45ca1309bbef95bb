//! What commands have in common that make many runs of the same files: the files are read and judged as `run` does, and kept as bytes;
//! and what such a command writes where nothing is run.
#![tactic(auto)]

mod order;
mod parts;
pub mod shrink;
pub mod sweep;
pub mod trial;
mod writing;

pub use order::OwnOrder;
pub use parts::{Parts, read_parts};
pub use writing::{refuse, write_text};
