// What a policy holds.

use crate::digest::Digest;
use crate::module::{Site, Span};
use crate::name::Name;

/// A kernel function that a module may call.
#[derive(Clone, Copy, Drop)]
pub struct Export {
    pub name: Name,
    pub addr: u64,
}

/// A module that may be loaded. Its measure is that of its text with every site cleared.
#[derive(Drop)]
pub struct ModulePolicy {
    pub name: Name,
    pub pages: u32,
    pub measure: Digest,
    pub sites: Vec<Site>,
}

/// What the machine is allowed to run. A module's id is its place in the list.
#[derive(Drop)]
pub struct Policy {
    pub format: u8,
    pub harts: u8,
    pub ram_pages: u32,
    pub entries: Vec<u64>,
    /// The guest-physical address that each entry is bound to in format 2; empty in format 1.
    pub bound: Vec<u64>,
    pub exports: Vec<Export>,
    pub kernel: Digest,
    pub init: Option<Span>,
    pub modules: Vec<ModulePolicy>,
}
