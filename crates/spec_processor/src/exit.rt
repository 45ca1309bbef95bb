// Why a hart traps, and what it hands to SecVisor where it leaves for the hypervisor.

ghost use Rattle.std.specs.Prelude.{◌≡◌};
ghost use Rattle.spec_processor.specs.HypervisorRegisters.{exit_number};
ghost use Rattle.spec_processor.specs.Traps.{is_interrupt, guest_number};

use crate::cause::Cause;
use crate::interrupt::Interrupt;

/// Why a hart traps or leaves: an exception, or an interrupt of the guest.
#[derive(Clone, Copy, PartialEq, Eq, Drop)]
pub enum ExitCause {
    Exception(Cause),
    Interrupt(Interrupt),
}

impl ExitCause {
    /// It is an interrupt: bit 63 of `scause`.
    pub fn is_interrupt(self) -> bool
        ensures { result ≡ is_interrupt self }
    {
        match self {
            ExitCause::Exception(_) => false,
            ExitCause::Interrupt(_) => true,
        }
    }

    /// Its number where the guest's kernel is entered, without bit 63 of `scause`.
    pub fn guest_number(self) -> u64
        ensures { result ≡ guest_number self }
    {
        match self {
            ExitCause::Exception(cause) => cause.number(),
            ExitCause::Interrupt(interrupt) => interrupt.number(),
        }
    }

    /// Its number where the hypervisor is entered: an interrupt stands one place higher than the guest's.
    pub fn exit_number(self) -> u64
        ensures { result ≡ exit_number self }
    {
        match self {
            ExitCause::Exception(cause) => cause.number(),
            ExitCause::Interrupt(interrupt) => interrupt.number() + 1,
        }
    }
}

/// What an attempt hands to SecVisor.
#[derive(Clone, Copy, PartialEq, Eq, Drop)]
pub struct Exit {
    /// The guest-virtual address of the instruction.
    pub pc: u64,
    /// The guest-virtual address that faulted, or the word of an instruction that isn't carried out.
    pub stval: u64,
    /// The guest-physical address that faulted, divided by 4.
    pub htval: u64,
    /// The transformed instruction of a guest-page fault, or that of an implicit read.
    pub htinst: u32,
    pub cause: ExitCause,
}
