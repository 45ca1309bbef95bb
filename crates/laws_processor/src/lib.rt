//! Laws and lemmas of the processor's definitions.
#![tactic(auto)]

mod instructions;
mod registers;

pub use instructions::law_rows;
pub use registers::law_guest_view;
