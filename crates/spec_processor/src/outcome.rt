// What an attempt of an instruction comes to.

use crate::cause::Cause;
use crate::exit::Exit;

/// The bytes that an attempt wrote: `width` of them from a host place on. Both are words, as the first fields of an exit
/// are, so that an outcome is handed on by whole words.
#[derive(Clone, Copy, PartialEq, Eq, Drop)]
pub struct Wrote {
    pub hpa: u64,
    pub width: u64,
}

/// What an attempt of a hart comes to.
#[derive(Clone, Copy, PartialEq, Eq, Drop)]
pub enum Outcome {
    /// The instruction is done, with the bytes that it wrote.
    Retired { wrote: Option<Wrote> },
    /// The guest's kernel was entered by a trap.
    GuestTrap,
    /// The hypervisor's turn.
    Exit(Exit),
}

/// An exception: its cause, and what the registers of a trap or an exit show of it. `htval` and `htinst` are 0 but for a
/// guest-page fault.
#[derive(Clone, Copy, Drop)]
pub struct Exception {
    pub cause: Cause,
    pub tval: u64,
    pub htval: u64,
    pub htinst: u32,
}
