//! The hardware of the machine: memory, harts with the views that they run under, caches and devices; its attempts, one by one and
//! in rows, and what devices move.
#![tactic(auto)]

mod attempts;
mod batch_turns;
mod hardware;
mod interrupt_lines;
mod moves;

pub use hardware::Hardware;
