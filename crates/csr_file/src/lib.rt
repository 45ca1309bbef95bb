//! The registers of a hart under a hypervisor, as the hardware keeps them with V = 1: what the guest reads and writes by
//! a register's number, and what an exit leaves for the hypervisor; which interrupt is taken, entry into the guest's kernel
//! and its return, and exits to the hypervisor.
#![tactic(auto)]

mod csrs;
mod entry;
mod hypervisor;
mod interrupt;
mod masks;

pub use csrs::{Csrs, at_guest_places, at_hypervisor_places};
pub use entry::{into_guest, into_hypervisor, return_to_guest, target};
pub use interrupt::pending;
pub use masks::{
    INTERRUPT_BITS, MISALIGNED, MXR_BIT, SATP_BITS, SIE, SIE_BIT, SOFTWARE_INTERRUPT, SPIE,
    SPIE_BIT, SPP, SPP_BIT, STATUS_BITS, SUM_BIT, TIME_ENABLE, TVEC_RESERVED, VIRTUAL_SOFTWARE,
};
pub use spec_processor::CsrFault;
