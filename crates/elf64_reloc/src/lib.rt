//! Module objects: relocatable ELF-64 files of RISC-V. Which names they want, their text as it is measured, and the fields
//! of it that a relocation changes.
#![tactic(auto)]

mod asked;
mod fault;
mod gathered;
mod kind_names;
mod layout;
mod names;
mod object;
mod order;
mod place;
mod read;
mod refusal;
mod relocations;
mod section_names;
mod sites;
mod symbols;
mod text;

pub use fault::ObjectFault;
pub use names::{names_in_order, undefined_names};
pub use place::refused_place;
pub use read::{ModuleImage, read_module};
pub use refusal::RelocRefusal;
