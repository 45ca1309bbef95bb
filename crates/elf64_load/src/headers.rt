// The program headers of the segments that are loaded.

ghost use Rattle.std.specs.Prelude.{◌≡◌, ◌+◌, ◌*◌, ◌<◌, ◌≤◌, length, All, IfOk};
ghost use Rattle.elf64_load.specs.Headers.{HasMemory};
ghost use Rattle.sv_types.specs.Elf.{file_header_size, program_header_size};
ghost use Rattle.sv_types.specs.Kernel.{header_at, is_loaded, loaded_among, table_place, table_count};

use crate::sections::elf::{
    E_PHNUM, E_PHOFF, P_FILESZ, P_FLAGS, P_MEMSZ, P_OFFSET, P_PADDR, P_TYPE, P_VADDR,
    PROGRAM_HEADER_BYTES, PT_LOAD,
};
use crate::sections::{double, half, word};
use std::alloc::{AllocError, Global};
use sv_types::ProgramHeader;

/// The program header at `at`.
#[tactic(auto, unfolding(sv_types::specs::Kernel::header_at))]
fn header_at(file: &[u8], at: usize) -> ProgramHeader
    requires { at + program_header_size ≤ length file.now }
    ensures { result ≡ header_at file.now at }
{
    ProgramHeader {
        kind: word(file, at + P_TYPE),
        flags: word(file, at + P_FLAGS),
        offset: double(file, at + P_OFFSET),
        va: double(file, at + P_VADDR),
        gpa: double(file, at + P_PADDR),
        file_size: double(file, at + P_FILESZ),
        memory_size: double(file, at + P_MEMSZ),
    }
}

fn is_loaded(header: &ProgramHeader) -> bool
    ensures { result ≡ is_loaded header.now }
{
    header.kind == PT_LOAD && header.memory_size > 0
}

/// The headers of the segments that are loaded, in their order.
pub(crate) fn loaded_headers(alloc: Global, file: &[u8]) -> Result<Vec<ProgramHeader>, AllocError>
    requires header { file_header_size ≤ length file.now }
    requires table { 0 < table_count file.now → table_place file.now + program_header_size * table_count file.now ≤ length file.now }
    ensures loaded { IfOk result (λ headers. headers.items ≡ loaded_among file.now (table_count file.now)) }
    ensures memory { IfOk result (λ headers. All HasMemory headers.items) }
{
    let count = half(file, E_PHNUM);
    let table = double(file, E_PHOFF);
    let mut headers = Vec::new(alloc);
    'headers: for i in 0..count as usize {
        let header = header_at(file, table as usize + PROGRAM_HEADER_BYTES * i);
        if is_loaded(&header) {
            headers.push(header)?;
        }
    }
    Ok(headers)
}
