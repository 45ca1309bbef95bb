//! What the words of a command ask for: which files are read in which order, what is refused, and what is due at the end.
#![tactic(auto)]

mod asking;
pub mod command_words;
mod file_fault;
mod judgement;
mod refusal;
mod words;

pub use crate::command_words::DiskKind;
pub use asking::{
    Unread, ask, ask_debug, ask_live, ask_resume, ask_show, ask_shrink, ask_snap, ask_survey,
    ask_sweep,
};
pub use file_fault::{FileFault, Part};
pub use judgement::judge;
pub use refusal::{Refusal, Word};
pub use words::{
    Command, DrawnOrder, Flat, Live, MakePolicy, Resume, Run, Snap, Source, Sweep, Terms,
    is_no_file,
};
