// One hart as plain data.

use spec_processor::{Mode, REGISTERS};

/// A hart: its mode, its registers as the guest sees them, and what is kept alongside them.
#[derive(Clone, Copy, Drop)]
pub struct SavedHart {
    pub started: bool,
    pub mode: Mode,
    pub pc: u64,
    /// The integer registers, of which register 0 is 0.
    pub registers: [u64; REGISTERS],
    /// Bits 33 and 32, which read as 2, are clear.
    pub sstatus: u64,
    pub sie: u64,
    pub stvec: u64,
    pub scounteren: u64,
    pub sscratch: u64,
    pub sepc: u64,
    pub scause: u64,
    pub stval: u64,
    /// The software interrupt, bit 1, alone: the others are wires.
    pub sip: u64,
    pub satp: u64,
    /// The guest-physical address of the 8 aligned bytes that are reserved.
    pub reservation: Option<u64>,
    /// The place of the entry that it is in, in the policy's list.
    pub entry: Option<u8>,
    /// The time of its timer's interrupt, in ticks; 2^64 - 1 means never.
    pub timer: u64,
}
