// The command `resume`: a run that goes on from a snapshot.

mod answer;
mod laws;
mod ready;
mod skipping;
mod snapshot_file;

pub use answer::secvisor_resume;
pub use laws::{law_resume_ends, law_snap_and_resume};
pub use skipping::{Left, events_left};
