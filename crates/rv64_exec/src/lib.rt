//! What instructions do: the registers, effects and atomic operations, by the effect table.
#![tactic(auto)]

mod atomic;
mod compute;
mod compute_word;
mod divide;
mod effects;
mod loaded;
mod registers;
mod word;

pub use atomic::amo;
pub use effects::effect;
pub use loaded::loaded_value;
pub use registers::Regs;
pub use spec_processor::Effect;
