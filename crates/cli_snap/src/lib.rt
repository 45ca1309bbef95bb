//! The command `snap`: a run up to a number of events, whose machine is saved as a snapshot; and what every run keeps, so that
//! these bytes are read again as they were.
#![tactic(auto)]

mod answer;
mod laws;
mod ready;
pub mod resume;
mod saving;
pub mod show;

pub use answer::secvisor_snap;
pub use laws::{law_block, law_counts, law_snap_ends, law_snap_file};
pub use saving::snapshot_bytes;
