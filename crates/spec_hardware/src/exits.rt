// What an exit of a hart is answered.

use spec_processor::ExitCause;

/// A load: the register that it sets, its virtual address, how it takes the value, and the guest-physical address.
#[derive(Clone, Copy, Drop)]
pub struct Load {
    pub rd: u8,
    pub address: u64,
    pub width: u8,
    pub signed: bool,
    pub gpa: u64,
}

/// A store: its virtual address, the guest-physical one, and what is stored.
#[derive(Clone, Copy, Drop)]
pub struct Store {
    pub address: u64,
    pub gpa: u64,
    pub width: u8,
    pub value: u64,
}

/// The answer to an exit.
#[derive(Clone, Copy, Drop)]
pub enum ExitAnswer {
    /// The hart traps, with the value that `stval` takes.
    Traps { cause: ExitCause, tval: u64 },
    /// It returns from its trap.
    Returns,
    /// It leaves kernel mode, since its next instruction isn't approved.
    Demotes { gpa: u64 },
    /// It leaves its entry, and attempts the same turn again.
    LeavesEntry,
    /// It stops the machine by a store into a protected page.
    StopsAtWrite { gpa: u64 },
    /// It loads from a device's register, or traps where there is none.
    LoadsDevice(Load),
    /// It stores into a device's register, or traps where there is none.
    StoresDevice(Store),
    /// It calls from kernel mode.
    Calls,
}
