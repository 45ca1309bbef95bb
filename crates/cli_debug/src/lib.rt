//! The command `debug`: a debugger asks over standard input how a run stands, moves it forwards and backwards, and is answered on
//! standard output.
#![tactic(auto)]

mod answer;
mod beginning;
pub mod target;

pub use answer::secvisor_debug;
pub use beginning::FilesBeginning;
