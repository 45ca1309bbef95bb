//! Calls of the program over files and a sink in memory, and what each prints and leaves behind: those of the stored guests, and
//! those that the lines of cases order. `data/parts.cases` of `test_runs` says what the orders are.
#![tactic(auto)]

mod answers;
mod calls;
mod case;
mod edits;
mod endless;
mod files;
mod folder;
mod guests;
mod live;
mod memory;
mod orders;
mod sessions;
mod values;

pub use endless::{ENDLESS, refuse_endless};
pub use guests::{compare_policies, run_guests};
pub use orders::follow_cases;
pub use sessions::run_sessions;
