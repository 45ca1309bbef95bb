// The command `shrink`: a run that stops, made small: a script under which the same machine stops in the same way, from which no
// line can be taken away.

mod answer;
mod lines;
mod shrinking;
mod trial;

pub use answer::secvisor_shrink;
pub use lines::{shrunk_line, shrunk_status};
pub use shrinking::{MAX_RUNS, Script, Shrunk, shrink};
