// The hypervisor registers.

use crate::mode::Mode;

/// The hypervisor registers of one hart.
#[derive(Clone, Copy, Drop)]
pub struct HRegs {
    pub mode: Mode,
    pub hgatp: u64,
    pub hedeleg: u64,
    pub hideleg: u64,
    pub vtsr: bool,
}
