// The header of a file.

ghost use Rattle.std.specs.Prelude.{◌≡◌, ◌≤◌, length, IfNone};
ghost use Rattle.sv_types.specs.Elf.{file_header_size};
ghost use Rattle.sv_types.specs.Kernel.{first_refusal, file_checks};

use crate::sections::elf::{
    E_FLAGS, E_MACHINE, E_TYPE, E_VERSION, EF_RISCV_TSO, EI_CLASS, EI_DATA, EI_MAG0, EI_VERSION,
    ELF_MAGIC, ELFCLASS64, ELFDATA2LSB, EM_RISCV, EV_CURRENT, FILE_HEADER_BYTES,
};
use crate::sections::fields::{byte, half, word};
use sv_types::HeaderFault;

/// The first fault of the header of a file, which is to be of a kind.
#[tactic(auto, unfolding(sv_types::specs::Kernel::file_checks))]
pub fn file_refusal(file: &[u8], kind: u16) -> Option<HeaderFault>
    ensures first { result ≡ first_refusal (file_checks kind file.now) }
    ensures long { IfNone result (file_header_size ≤ length file.now) }
{
    if file.len() < FILE_HEADER_BYTES {
        return Some(HeaderFault::TooShort);
    }
    if word(file, EI_MAG0) != ELF_MAGIC {
        return Some(HeaderFault::Magic);
    }
    if byte(file, EI_CLASS) != ELFCLASS64 || byte(file, EI_DATA) != ELFDATA2LSB {
        return Some(HeaderFault::Class);
    }
    if byte(file, EI_VERSION) != EV_CURRENT || word(file, E_VERSION) != EV_CURRENT as u32 {
        return Some(HeaderFault::Version);
    }
    if half(file, E_MACHINE) != EM_RISCV {
        return Some(HeaderFault::Machine);
    }
    if half(file, E_TYPE) != kind {
        return Some(HeaderFault::Kind);
    }
    if word(file, E_FLAGS) % EF_RISCV_TSO != 0 {
        return Some(HeaderFault::Flags);
    }
    None
}
