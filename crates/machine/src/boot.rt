// Why a machine isn't booted.
ghost use Rattle.std.specs.Prelude.{◌≡◌};
ghost use Rattle.machine.specs.declared.boot.BootRefusal.TheVariants.{Memory};

use std::alloc::{AllocError, AllocFailed};
use sv_types::Digest;

/// Why a machine isn't booted.
#[derive(Clone, Copy, Drop)]
pub enum BootRefusal {
    /// The pages measure to another digest than the one that is wanted.
    Measure { found: Digest, wanted: Digest },
    /// The hart would begin at an address that isn't permitted.
    Entry { entry: u64 },
    /// Memory ran out.
    Memory,
}

impl From<AllocError> for BootRefusal {
    ghost from_gives = { λ _ e. e ≡ Memory };

    fn from(_: AllocError) -> Self {
        BootRefusal::Memory
    }
}

impl<T: Drop> From<AllocFailed<T>> for BootRefusal {
    ghost from_gives = { λ _ e. e ≡ Memory };

    fn from(_: AllocFailed<T>) -> Self {
        BootRefusal::Memory
    }
}
