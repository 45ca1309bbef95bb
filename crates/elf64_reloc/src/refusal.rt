// Why an object is refused.

ghost use Rattle.elf64_reloc.specs.declared.refusal.RelocRefusal.TheVariants.{Fault, Memory};
ghost use Rattle.std.specs.Prelude.{◌≡◌};

use crate::fault::ObjectFault;
use std::alloc::{AllocError, AllocFailed};
use thiserror::Error;

/// Why an object is refused.
#[derive(Clone, Copy, Debug, Drop, Error)]
pub enum RelocRefusal {
    /// The first fault of the object.
    #[error("a fault of the object")]
    Fault(ObjectFault),
    #[error("out of memory")]
    Memory,
}

impl From<ObjectFault> for RelocRefusal {
    ghost from_gives = { λ fault e. e ≡ Fault fault };

    fn from(fault: ObjectFault) -> RelocRefusal {
        RelocRefusal::Fault(fault)
    }
}

impl From<AllocError> for RelocRefusal {
    ghost from_gives = { λ _ e. e ≡ Memory };

    fn from(_e: AllocError) -> RelocRefusal {
        RelocRefusal::Memory
    }
}

impl<T: Drop> From<AllocFailed<T>> for RelocRefusal {
    ghost from_gives = { λ _ e. e ≡ Memory };

    fn from(_e: AllocFailed<T>) -> RelocRefusal {
        RelocRefusal::Memory
    }
}
