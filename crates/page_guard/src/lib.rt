//! How pages of RAM are guarded: their protections, the two views and the bits for devices that follow them, and the
//! side that a hart is on.
#![tactic(auto)]

mod entries;
mod guard;
mod privilege;

pub use entries::Entries;
pub use guard::{Guard, Hold, Taken};
pub use privilege::{Forbidden, PrivilegeView};
