// How the runs of many numbers ended: of each way to end how many did so, and the least of their numbers; and the lines that say
// it.

mod lines;
mod outcome;
mod stops;
mod tally;

pub use lines::{sweep_status, sweep_text};
pub use outcome::Outcome;
pub use tally::{Tallies, Tally, tally_runs};
