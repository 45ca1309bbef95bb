// Why nothing was read.

ghost use Rattle.snapshot_format.specs.declared.reader.read_error.ReadError.TheVariants.{Memory, Refused};
ghost use Rattle.std.specs.Prelude.{◌≡◌};

use crate::SnapRefusal;
use std::alloc::{AllocError, AllocFailed};
use thiserror::Error;

/// Why bytes aren't read.
#[derive(Clone, Copy, Debug, Drop, Error)]
pub enum ReadError {
    /// They are no snapshot.
    #[error("no snapshot")]
    Refused(SnapRefusal),
    #[error("out of memory")]
    Memory,
}

impl From<SnapRefusal> for ReadError {
    ghost from_gives = { λ refusal e. e ≡ Refused refusal };

    fn from(refusal: SnapRefusal) -> ReadError {
        ReadError::Refused(refusal)
    }
}

impl From<AllocError> for ReadError {
    ghost from_gives = { λ _ e. e ≡ Memory };

    fn from(_e: AllocError) -> ReadError {
        ReadError::Memory
    }
}

impl<T: Drop> From<AllocFailed<T>> for ReadError {
    ghost from_gives = { λ _ e. e ≡ Memory };

    fn from(_e: AllocFailed<T>) -> ReadError {
        ReadError::Memory
    }
}
