//! The command `survey`: a run that passes over each write that would stop it, and the lines of what was found.
#![tactic(auto)]

mod answer;
mod ending;
mod laws;
mod looking;
mod noting;
mod ready;
mod rows;
mod surveying;

pub use answer::secvisor_survey;
pub use laws::{law_no_findings, law_refused_noted};
pub use ready::{KernelFile, ReadySurvey};
