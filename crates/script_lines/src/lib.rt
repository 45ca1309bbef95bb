//! The lines of a script as data: written out of a schedule, as a text, and made fewer while a run over them stops as it did.
#![tactic(auto)]

pub mod delta_debugging;
mod listing;
mod shrinking;
pub mod tally;
mod text;

pub use listing::{halved, joined, write_out};
pub use shrinking::shrink_lines;
pub use text::script_text;
