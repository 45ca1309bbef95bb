// Why no policy is made.

ghost use Rattle.std.specs.Prelude.{◌≡◌};
ghost use Rattle.policy_making.specs.Refusals.{of_image, of_module};
ghost use Rattle.policy_making.specs.declared.refusal.MakingRefusal.TheVariants.{Fault, Memory};

use elf64_load::ElfRefusal;
use elf64_reloc::{ObjectFault, RelocRefusal};
use std::alloc::{AllocError, AllocFailed};
use sv_types::ImageFault;
use thiserror::Error;

/// What is wrong with the files of a policy.
#[derive(Clone, Copy, Debug, Drop)]
pub enum MakingFault {
    /// The first fault of the kernel's image, or of the exports that are wanted of it.
    Image(ImageFault),
    /// The first fault of a module's object.
    Module(ObjectFault),
    /// The modules have more than 131,072 sites together.
    TooManySites,
}

/// Why no policy is made.
#[derive(Clone, Copy, Debug, Drop, Error)]
pub enum MakingRefusal {
    /// The first fault.
    #[error("a fault of the files")]
    Fault(MakingFault),
    #[error("out of memory")]
    Memory,
}

impl From<MakingFault> for MakingRefusal {
    ghost from_gives = { λ fault e. e ≡ Fault fault };

    fn from(fault: MakingFault) -> MakingRefusal {
        MakingRefusal::Fault(fault)
    }
}

impl From<AllocError> for MakingRefusal {
    ghost from_gives = { λ _ e. e ≡ Memory };

    fn from(_e: AllocError) -> MakingRefusal {
        MakingRefusal::Memory
    }
}

impl<T: Drop> From<AllocFailed<T>> for MakingRefusal {
    ghost from_gives = { λ _ e. e ≡ Memory };

    fn from(_e: AllocFailed<T>) -> MakingRefusal {
        MakingRefusal::Memory
    }
}

/// Why an image's fault refuses.
pub(crate) fn of_image(refusal: ElfRefusal) -> MakingRefusal
    ensures { result ≡ of_image refusal }
{
    match refusal {
        ElfRefusal::Fault(fault) => MakingRefusal::Fault(MakingFault::Image(fault)),
        ElfRefusal::Memory => MakingRefusal::Memory,
    }
}

/// Why an object's fault refuses.
pub(crate) fn of_module(refusal: RelocRefusal) -> MakingRefusal
    ensures { result ≡ of_module refusal }
{
    match refusal {
        RelocRefusal::Fault(fault) => MakingRefusal::Fault(MakingFault::Module(fault)),
        RelocRefusal::Memory => MakingRefusal::Memory,
    }
}
