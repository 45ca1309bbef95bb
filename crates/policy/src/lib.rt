//! The policy's text: what is read of it, where it is refused, and its printing, which is read back as that policy.
#![tactic(auto)]

mod binding;
mod entries;
mod first;
mod kernel;
mod module_place;
mod modules;
mod place;
mod printing;
mod refusal;
mod sites;
mod text;
mod values;

pub use first::first_refused;
pub use place::refused_place;
pub use policy_limits::within;
pub use printing::write;
pub use refusal::PolicyRefusal;
pub use text::read;
