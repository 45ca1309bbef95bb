//! SecVisor: its policy, the entries that it permits, the guard of pages and the modules; what it answers where a hart exits, and what
//! each answer does to the hardware and to the journal; and the turns of a load.
#![tactic(auto)]

pub mod boot;
mod exits;
mod loads;
mod visor;

pub use exits::is_again;
pub use visor::Visor;
