// Runs of which only the end is asked: each is made from the bytes of its files, by a machine of its own, and prints nothing.

mod beginning;
mod ending;
mod files;
mod keeping;
mod order;
mod silent;
mod trial;

pub use ending::Ending;
pub use files::{NoOutcome, RunFiles};
pub use keeping::keep_memory;
pub use order::Order;
pub use trial::{boot_files, script_of_order, try_order};
