//! Modules: which are loaded, the load that is under way, what a call about them is answered, and what loads, unloads and retires.
#![tactic(auto)]

mod decisions;
mod gate;
mod giving;
mod init;
mod load;
mod loaded;
mod modules;
mod places;
mod rules;
mod turns;

pub use decisions::module_answer;
pub use gate::Gate;
pub use giving::give_pages;
pub use load::Load;
pub use modules::{Modules, PendingLoad};
pub use turns::{load_turn, next_page};
