// The files of a command, and what is found in them.

ghost use Rattle.cli_diagnostics.specs.declared.files.Found.TheVariants.{Nothing};
ghost use Rattle.std.specs.Prelude.{◌≡◌, ◌≤◌, IfOk, length};

use std::alloc::{AllocError, AllocFailed, Global};

/// Files by name that were read before.
pub trait Reread {
    /// The first bytes that a name holds, at most so many. None where they can't be read again.
    fn first_bytes(&self, alloc: Global, name: &str, most: usize) -> Option<Vec<u8>>;
}

/// The most bytes of each part of a command.
#[derive(Clone, Copy, Drop)]
pub struct MostBytes {
    pub flat: usize,
    pub policy: usize,
    pub image: usize,
    pub disk: usize,
    pub script: usize,
    pub module: usize,
    pub snapshot: usize,
}

/// Why a command's files are looked at no further.
#[derive(Drop)]
pub(crate) enum Found {
    /// What there is to say of a file.
    Remark(String),
    /// A file can't be read again, or memory runs out.
    Nothing,
}

impl From<AllocError> for Found {
    ghost from_gives = { λ _ found. found ≡ Nothing };

    fn from(_e: AllocError) -> Found {
        Found::Nothing
    }
}

impl<T: Drop> From<AllocFailed<T>> for Found {
    ghost from_gives = { λ _ found. found ≡ Nothing };

    fn from(_e: AllocFailed<T>) -> Found {
        Found::Nothing
    }
}

/// What there is to say of a file.
pub(crate) fn remark_on(alloc: Global, name: &str, what: &str) -> Found {
    match format!(in alloc; "{name}: {what}") {
        Ok(text) => Found::Remark(text),
        Err(_) => Found::Nothing,
    }
}

/// What there is to say of a file, and where in it.
pub(crate) fn remark_at(alloc: Global, name: &str, place: Option<String>, what: &str) -> Found {
    match place {
        Some(place) => {
            let place = place.as_str();
            match format!(in alloc; "{name}: {place}: {what}") {
                Ok(text) => Found::Remark(text),
                Err(_) => Found::Nothing,
            }
        }
        None => remark_on(alloc, name, what),
    }
}

/// The bytes of a file that isn't too long.
pub(crate) fn read_part<A: Reread>(
    alloc: Global,
    files: &A,
    name: &str,
    most: usize,
) -> Result<Vec<u8>, Found>
    ensures { IfOk result (λ bytes. length bytes.items ≤ most) }
{
    match files.first_bytes(alloc, name, most.saturating_add(1)) {
        Some(bytes) => {
            if bytes.len() > most {
                let what = format!(in alloc; "longer than {most} bytes")?;
                Err(remark_on(alloc, name, what.as_str()))
            } else {
                Ok(bytes)
            }
        }
        None => Err(Found::Nothing),
    }
}
