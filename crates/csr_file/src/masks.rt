// Bits of the supervisor registers. Privileged manual, "Supervisor CSRs" and "Hypervisor and Virtual Supervisor CSRs".

use spec_processor::{
    EXTERNAL_NUMBER, ROOT_MODE_SHIFT, ROOT_PAGE_BITS, SOFTWARE_NUMBER, TIMER_NUMBER,
};

/// SIE of a status: kernel mode takes interrupts.
pub const SIE: u64 = 1 << SIE_BIT;
/// The place of SIE.
pub const SIE_BIT: u8 = 1;
/// SPIE of a status: SIE before the trap.
pub const SPIE: u64 = 1 << SPIE_BIT;
/// The place of SPIE.
pub const SPIE_BIT: u8 = 5;
/// SPP of a status: the mode before the trap was kernel mode.
pub const SPP: u64 = 1 << SPP_BIT;
/// The place of SPP.
pub const SPP_BIT: u8 = 8;
/// SUM of a status: kernel mode may reach pages of user mode.
const SUM: u64 = 1 << SUM_BIT;
/// The place of SUM.
pub const SUM_BIT: u8 = 18;
/// MXR of a status: what is executable may be read.
const MXR: u64 = 1 << MXR_BIT;
/// The place of MXR.
pub const MXR_BIT: u8 = 19;
/// The bits of a status that a guest writes.
pub const STATUS_BITS: u64 = SIE | SPIE | SPP | SUM | MXR;
/// UXL of `vsstatus`, as it is read: user mode has 64-bit registers.
pub(crate) const UXL: u64 = 2 << 32;
/// The guest's software interrupt in `sie` and `sip`.
pub const SOFTWARE_INTERRUPT: u64 = 1 << SOFTWARE_NUMBER;
/// The guest's timer interrupt there.
const TIMER_INTERRUPT: u64 = 1 << TIMER_NUMBER;
/// The guest's external interrupt there.
const EXTERNAL_INTERRUPT: u64 = 1 << EXTERNAL_NUMBER;
/// The three together.
pub const INTERRUPT_BITS: u64 = SOFTWARE_INTERRUPT | TIMER_INTERRUPT | EXTERNAL_INTERRUPT;
/// The same interrupts in `hie`, `hip` and `hideleg`.
pub(crate) const VIRTUAL_INTERRUPT_BITS: u64 = INTERRUPT_BITS << 1;
/// The guest's software interrupt there, the only one that `hvip` keeps.
pub const VIRTUAL_SOFTWARE: u64 = SOFTWARE_INTERRUPT << 1;
/// The guest's timer interrupt there, a wire.
pub(crate) const VIRTUAL_TIMER: u64 = TIMER_INTERRUPT << 1;
/// The guest's external interrupt there, a wire.
pub(crate) const VIRTUAL_EXTERNAL: u64 = EXTERNAL_INTERRUPT << 1;
/// The second of the two bits of `stvec`'s mode.
pub const TVEC_RESERVED: u64 = 1 << 1;
/// TM of `scounteren`: user mode reads the time.
pub const TIME_ENABLE: u64 = 1 << TIME_ENABLE_BIT;
/// The place of TM.
pub(crate) const TIME_ENABLE_BIT: u8 = 1;
/// Instructions lie at multiples of 4.
pub const MISALIGNED: u64 = 3;
/// The mode and the root's page of `satp`.
pub const SATP_BITS: u64 = ((1 << (64 - ROOT_MODE_SHIFT)) - 1) << ROOT_MODE_SHIFT
    | (1 << ROOT_PAGE_BITS) - 1;
