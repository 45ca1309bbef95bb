//! Turns of a hart in a row that only compute, load, store, operate on words of memory and access registers, made by a shorter
//! way than an attempt each: the page that instructions are fetched from is looked up once. ECALL in user mode and SRET in
//! kernel mode end a row, and leave the guest by the same way.
#![tactic(auto)]

mod batch;
mod flatten;
mod leaving;
mod memory;
mod micro_op;
mod micro_op_cache;
mod micro_op_kind;
mod registers;
mod requests;
mod tried;
mod window;

pub use batch::{Alone, Batch, InRow, Way};
pub use leaving::Leaving;
pub use micro_op_cache::MicroOpCache;
