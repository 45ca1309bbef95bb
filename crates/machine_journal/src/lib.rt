//! What the machine records: printed bytes, notes, counts and the verdict.
#![tactic(auto)]

mod journal;
mod notes;

pub use journal::Journal;
pub use notes::Notes;
