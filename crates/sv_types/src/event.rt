// What happens to the machine, and what it records.

use crate::sbi::SbiCode;

/// The rule by which a machine stops.
#[derive(Clone, Copy, PartialEq, Eq, Drop)]
pub enum Rule {
    /// A trap from user mode to an address that is no permitted entry.
    Entry { target: u64 },
    /// A store into a protected page, at a guest-physical address.
    Write { pc: u64, gpa: u64 },
}

/// Whether the machine runs. `turn` is the count of turns with the one that stopped it.
#[derive(Clone, Copy, PartialEq, Eq, Drop)]
pub enum Verdict {
    Running,
    Shutdown,
    Stopped { rule: Rule, hart: u8, turn: u64 },
}

/// One atomic action: a turn of a hart, a move of the block device, a byte of input, time that passes, a write of an
/// attacker's device.
#[derive(Clone, Copy, Debug, PartialEq, Eq, Drop)]
pub enum Event {
    Turn(u8),
    Beat,
    Key(u8),
    Tick(u64),
    /// Eight bytes, little-endian, to a guest-physical address, which is a multiple of 8.
    Poke { gpa: u64, value: u64 },
}

/// One line of the machine's journal.
#[derive(Clone, Copy, Drop)]
pub enum Note {
    /// A hart left kernel mode, since its next instruction isn't approved.
    Demote {
        hart: u8,
        turn: u64,
        pc: u64,
        gpa: u64,
    },
    /// A device was kept from writing into a protected page.
    Denied {
        gpa: u64,
    },
    /// The answer to a call that loads a module.
    Load {
        hart: u8,
        turn: u64,
        id: u64,
        code: SbiCode,
    },
    /// The answer to a call that unloads a module.
    Unload {
        hart: u8,
        turn: u64,
        id: u64,
        code: SbiCode,
    },
    /// The answer to a call that frees the kernel's init text.
    Retire {
        hart: u8,
        turn: u64,
        code: SbiCode,
    },
}

/// How often each thing happened.
#[derive(Clone, Copy, Default, Drop)]
pub struct Counts {
    pub turns: u64,
    pub beats: u64,
    pub keys: u64,
    pub ticks: u64,
    pub retired: u64,
    pub traps: u64,
    pub enters: u64,
    pub leaves: u64,
    pub demotes: u64,
    pub denied: u64,
    pub dropped: u64,
    pub loads: u64,
    pub unloads: u64,
    pub refused: u64,
    pub notes: u64,
}
