//! What stands after a run's console: a line for each note, the counts, and the verdict with its status.
#![tactic(auto)]

mod counts;
pub mod findings;
mod notes;
mod verdict;
mod whole;

pub use notes::note_line;
pub use verdict::{status_of, verdict_text};
pub use whole::report;
