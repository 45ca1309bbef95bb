//! The command `live`: a machine that is run while a second thread reads its keys, and whose events are saved as a script.
#![tactic(auto)]

mod answer;
mod driving;
mod host;
mod laws;
mod live_run;
mod making;
mod ready;
mod threads;

pub use answer::secvisor_live;
pub use host::Host;
pub use laws::law_live_ends;
