// The numbers of the registers that a guest can't reach. Privileged manual, "Hypervisor CSRs" and "Virtual Supervisor CSRs" of
// the listing of CSRs.

pub(crate) const VSSTATUS: u16 = 0x200;

pub(crate) const VSIE: u16 = 0x204;

pub(crate) const VSTVEC: u16 = 0x205;

pub(crate) const VSSCRATCH: u16 = 0x240;

pub(crate) const VSEPC: u16 = 0x241;

pub(crate) const VSCAUSE: u16 = 0x242;

pub(crate) const VSTVAL: u16 = 0x243;

pub(crate) const VSIP: u16 = 0x244;

pub(crate) const VSATP: u16 = 0x280;

pub(crate) const HSTATUS: u16 = 0x600;

pub(crate) const HEDELEG: u16 = 0x602;

pub(crate) const HIDELEG: u16 = 0x603;

pub(crate) const HIE: u16 = 0x604;

pub(crate) const HCOUNTEREN: u16 = 0x606;

pub(crate) const HTVAL: u16 = 0x643;

pub(crate) const HIP: u16 = 0x644;

pub(crate) const HVIP: u16 = 0x645;

pub(crate) const HTINST: u16 = 0x64A;

pub(crate) const HGATP: u16 = 0x680;
