// What ends a session early.

ghost use Rattle.std.specs.Prelude.{◌≡◌};
ghost use Rattle.debug_session.specs.declared.breakdown.Breakdown.TheVariants.{Memory, Write};

use std::alloc::AllocError;
use sv_types::Failed;

/// What ends a session early.
#[derive(Clone, Copy, Debug, PartialEq, Eq, Drop)]
pub enum Breakdown {
    /// A read of the input failed.
    Read,
    /// A write failed.
    Write,
    /// Memory ran out.
    Memory,
}

impl From<AllocError> for Breakdown {
    ghost from_gives = { λ _ e. e ≡ Memory };

    fn from(_: AllocError) -> Self {
        Breakdown::Memory
    }
}

impl From<Failed> for Breakdown {
    ghost from_gives = { λ _ e. e ≡ Write };

    fn from(_: Failed) -> Self {
        Breakdown::Write
    }
}
