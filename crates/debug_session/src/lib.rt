//! A debugging session by gdb's protocol.
#![tactic(auto)]

mod breakdown;
mod breaks;
mod desk;
mod host;
mod laws;
mod motion;
mod performing;
mod places;
mod questions;
mod reasons;
mod replies;
mod serving;
mod target;
mod watches;

pub use breakdown::Breakdown;
pub use desk::Desk;
pub use laws::{law_ahead, law_behind};
pub use motion::{Change, Found};
pub use places::{Place, place_name};
pub use questions::Question;
pub use serving::serve;
pub use target::Target;
pub use watches::{Watch, Width};
