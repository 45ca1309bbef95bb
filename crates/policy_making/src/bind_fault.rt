// Why a policy's entries aren't bound.

ghost use Rattle.std.specs.Prelude.{◌≡◌};
ghost use Rattle.policy_making.specs.Faults.{convert_fault_number};
ghost use Rattle.policy_making.specs.declared.bind_fault.BindRefusal.TheVariants.{Fault, Memory};

use std::alloc::{AllocError, AllocFailed};
use sv_types::Digest;
use thiserror::Error;

/// What is wrong with a policy, or with one of its entries.
#[derive(Clone, Copy, Debug, Drop)]
pub enum ConvertFault {
    /// The policy's format isn't 1.
    OtherFormat,
    /// An entry lies in no executable segment of the kernel.
    NoPlace,
    /// An entry and its place differ in their low 12 bits.
    OtherByte,
}

impl ConvertFault {
    /// The fault's number in the line that refuses to convert.
    pub fn number(self) -> u8
        ensures { result ≡ convert_fault_number self }
    {
        match self {
            ConvertFault::OtherFormat => 1,
            ConvertFault::NoPlace => 2,
            ConvertFault::OtherByte => 3,
        }
    }
}

/// What is wrong with a policy and a kernel.
#[derive(Clone, Copy, Debug, Drop)]
pub enum BindFault {
    /// The policy's format, or the first entry that isn't bound.
    Convert(ConvertFault),
    /// The kernel's text measures to another digest than the one that the policy wants.
    Measure { found: Digest, wanted: Digest },
}

/// Why a policy's entries aren't bound.
#[derive(Clone, Copy, Debug, Drop, Error)]
pub enum BindRefusal {
    /// The first fault.
    #[error("a fault of the policy, the kernel or an entry")]
    Fault(BindFault),
    #[error("out of memory")]
    Memory,
}

impl From<BindFault> for BindRefusal {
    ghost from_gives = { λ fault e. e ≡ Fault fault };

    fn from(fault: BindFault) -> BindRefusal {
        BindRefusal::Fault(fault)
    }
}

impl From<AllocError> for BindRefusal {
    ghost from_gives = { λ _ e. e ≡ Memory };

    fn from(_e: AllocError) -> BindRefusal {
        BindRefusal::Memory
    }
}

impl<T: Drop> From<AllocFailed<T>> for BindRefusal {
    ghost from_gives = { λ _ e. e ≡ Memory };

    fn from(_e: AllocFailed<T>) -> BindRefusal {
        BindRefusal::Memory
    }
}
