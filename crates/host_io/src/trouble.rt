// What may end an answer early.

ghost use Rattle.std.specs.Prelude.{◌≡◌};
ghost use Rattle.host_io.specs.Endings.{status_of_end};
ghost use Rattle.host_io.specs.declared.trouble.Trouble.TheVariants.{Write, Memory};

use crate::SaveFailed;
use std::alloc::AllocError;
use sv_types::{Failed, Status};

/// What ends an answer before its status stands.
#[derive(Clone, Copy, Drop)]
pub enum Trouble {
    /// A write or a save failed.
    Write,
    /// Memory ran out.
    Memory,
}

impl From<Failed> for Trouble {
    ghost from_gives = { λ _ e. e ≡ Write };

    fn from(_: Failed) -> Self {
        Trouble::Write
    }
}

impl From<SaveFailed> for Trouble {
    ghost from_gives = { λ _ e. e ≡ Write };

    fn from(_: SaveFailed) -> Self {
        Trouble::Write
    }
}

impl From<AllocError> for Trouble {
    ghost from_gives = { λ _ e. e ≡ Memory };

    fn from(_: AllocError) -> Self {
        Trouble::Memory
    }
}

/// The status that an answer ends with.
pub fn status_of_end(answer: Result<Status, Trouble>) -> Status
    ensures { result ≡ status_of_end answer }
{
    match answer {
        Ok(status) => status,
        Err(Trouble::Write) => Status::WriteFault,
        Err(Trouble::Memory) => Status::Memory,
    }
}
