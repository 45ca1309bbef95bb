// A whole machine as plain data.

use crate::saved_machine::harts::SavedHart;
use sv_types::{Counts, ModulePlacement, Note, PortState, Protection, Verdict};

/// A load under way: the hart that asked for it, its arguments, and the pages that are left to count.
#[derive(Clone, Copy, Drop)]
pub struct SavedLoad {
    pub hart: u8,
    pub module: ModulePlacement,
    pub left: u32,
}

/// A machine between two events: all that its guest's further run depends on, and what it recorded, but for the policy and
/// the printed bytes.
#[derive(Drop)]
pub struct Saved {
    pub harts: Vec<SavedHart>,
    /// The bytes of guest RAM.
    pub ram: Vec<u8>,
    /// Of each page of RAM.
    pub protection: Vec<Protection>,
    /// The loaded modules, ascending by id.
    pub modules: Vec<ModulePlacement>,
    /// Whether the init pages are retired.
    pub retired: bool,
    pub loading: Option<SavedLoad>,
    /// Bytes of input that wait, the next one first.
    pub console: Vec<u8>,
    /// The device that the disk is behind.
    pub port: PortState,
    /// The bytes of the disk.
    pub disk: Vec<u8>,
    /// In ticks.
    pub time: u64,
    pub counts: Counts,
    /// The first 4,096.
    pub notes: Vec<Note>,
    pub verdict: Verdict,
}
