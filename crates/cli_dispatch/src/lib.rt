//! The call that the words ask for: which command's, and that call.
#![tactic(auto)]

mod call;
mod choice;

pub use call::answer;
pub use choice::{TopCall, top_call_of};
pub use cli_live::Host;
pub use cli_trials::sweep::Progress;
