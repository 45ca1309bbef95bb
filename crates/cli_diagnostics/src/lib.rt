//! What is known of a refused file beyond the line that refuses it, for a person: which file, which key of a policy, which
//! relocation of a module, and the fault in words. It is worked out anew from the words of the command and its files, so
//! that nothing that is proved of the program has to carry it; no clause speaks of it.
#![tactic(auto)]

mod command;
mod converting;
mod ending;
mod faults;
mod files;
mod making;
mod manual;
mod resuming;
mod running;
mod saved_script;
mod words;

pub use command::remark;
pub use ending::{Ending, stop_remark};
pub use files::{MostBytes, Reread};
pub use manual::help;
pub use saved_script::script_remark;
pub use words::{WordRemark, word_remark};
