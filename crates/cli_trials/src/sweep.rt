// The command `sweep`: the runs of many numbers, on all processors at once, and how each ends, counted.

mod answer;
mod numbers;
mod progress;
mod sweeping;

pub use answer::secvisor_sweep;
pub use progress::Progress;
pub use sweeping::{Sweep, sweep_numbers};
