// Delta debugging (A. Zeller, R. Hildebrandt: Simplifying and Isolating Failure-Inducing Input, 2002): a list of items under which
// a run stops is made smaller while the run still stops so.

mod removal;
mod shrinking;
mod stops;

pub use shrinking::minimize;
pub use stops::Stops;
