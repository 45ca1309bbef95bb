// The files, the outside and what a call leaves behind, all in memory.
ghost use Rattle.std.specs.Prelude.{◌≡◌, IfOk};

use host_io::{Files, MemFiles, MemSink};
use secvisor_cli::Status;
use std::alloc::{AllocError, Global};
use sv_types::Name;

// So many files are put there before a call.
const HANDED: u64 = 4;

// The most bytes of all files of a call.
const FILE_ROOM: usize = 8_388_608;

/// The most bytes that a call prints.
pub const PRINTED_ROOM: usize = 20_000;

/// The files before a call, each under the name of its field.
#[derive(Drop)]
pub struct Handed {
    pub image: Vec<u8>,
    pub policy: Vec<u8>,
    pub disk: Vec<u8>,
    pub script: Vec<u8>,
}

/// What a call left behind.
#[derive(Drop)]
pub struct Left {
    pub status: Status,
    pub taken: Vec<u8>,
    /// What lies under the name `saved`.
    pub saved: Option<Vec<u8>>,
    pub is_booted: bool,
}

/// What the outside does: the read, the write and the save that fail, counted from 1, whether no file can be made under the
/// name `saved`, and the most bytes that a write takes.
#[derive(Clone, Copy)]
pub struct Outside {
    pub failing_read: u64,
    pub failing_write: u64,
    pub failing_save: u64,
    pub is_barred: bool,
    pub piece: usize,
}

pub const GOOD: Outside = Outside {
    failing_read: 0,
    failing_write: 0,
    failing_save: 0,
    is_barred: false,
    piece: PRINTED_ROOM,
};

/// What a call answers, and whether a machine was booted.
#[derive(Clone, Copy)]
pub struct Answer {
    pub status: Status,
    pub is_booted: bool,
}

// The number of the failing save, after those that put the files there.
fn save_number(outside: Outside) -> u64 {
    if outside.failing_save == 0 {
        0
    } else {
        outside.failing_save.saturating_add(HANDED)
    }
}

/// Holds the files, with room for one more.
pub fn hold(alloc: Global, handed: &Handed, outside: Outside) -> Result<MemFiles, AllocError>
    ensures reads { IfOk result (λ files. files.read_faults ≡ 0) }
    ensures saves { IfOk result (λ files. files.save_faults ≡ 0) }
{
    let failing_reads = [outside.failing_read];
    let failing_saves = [save_number(outside)];
    let saves = HANDED as usize + 1;
    let mut files = MemFiles::new(alloc, &[], saves, FILE_ROOM, &failing_reads, &failing_saves)?;
    if files.save("image", &handed.image).is_err() {
        return Err(AllocError);
    }
    if files.save("policy", &handed.policy).is_err() {
        return Err(AllocError);
    }
    if files.save("disk", &handed.disk).is_err() {
        return Err(AllocError);
    }
    if files.save("script", &handed.script).is_err() {
        return Err(AllocError);
    }
    if outside.is_barred {
        files.bar(barred_names(alloc)?);
    }
    Ok(files)
}

// The name that calls save under.
fn barred_names(alloc: Global) -> Result<Vec<Name>, AllocError> {
    let mut names = Vec::new(alloc);
    if let Some(name) = Name::new("saved") {
        names.push(name)?;
    }
    Ok(names)
}

/// What is left of a call in its files and its sink.
pub fn left_behind(
    alloc: Global,
    answer: Answer,
    files: &MemFiles,
    out: &MemSink,
) -> Result<Left, AllocError> {
    let saved = match files.bytes("saved") {
        Some(bytes) => Some(bytes.to_vec(alloc)?),
        None => None,
    };
    Ok(Left {
        status: answer.status,
        taken: out.taken_bytes().to_vec(alloc)?,
        saved,
        is_booted: answer.is_booted,
    })
}
