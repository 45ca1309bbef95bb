// What a relocation asks for.

ghost use Rattle.std.specs.Prelude.{◌≡◌};
ghost use Rattle.elf64_reloc.specs.Asking as spec;

use elf64_load::sections::elf::{R_RISCV_CALL, R_RISCV_CALL_PLT};
use policy_limits::site_size;
use spec_processor::INSTRUCTION_BYTES;
use sv_types::RelocationKind;

/// The bytes of a call: two instructions.
const CALL_BYTES: u64 = 2 * INSTRUCTION_BYTES;

/// What a relocation of a module's text asks for.
#[derive(Clone, Copy, Drop)]
pub enum Asked {
    /// One field of this kind.
    Field(RelocationKind),
    /// The two fields of a call.
    Call,
}

impl Asked {
    /// What the kind of a number asks for. None where no module may have it.
    pub(crate) fn of(number: u32) -> Option<Asked>
        ensures { result ≡ spec.asked_of number }
    {
        if number == R_RISCV_CALL || number == R_RISCV_CALL_PLT {
            return Some(Asked::Call);
        }
        match RelocationKind::of(u64::from(number)) {
            Some(kind) => Some(Asked::Field(kind)),
            None => None,
        }
    }
}

/// The bytes of all fields.
pub(crate) fn asked_bytes(asked: Asked) -> u64
    ensures { result ≡ spec.asked_bytes asked }
{
    match asked {
        Asked::Field(kind) => site_size(kind),
        Asked::Call => CALL_BYTES,
    }
}

/// Which multiples the place of a relocation has to be, of whatever kind it is.
pub(crate) fn place_alignment(asked: Option<Asked>) -> u64
    ensures { result ≡ spec.place_alignment asked }
{
    match asked {
        Some(Asked::Field(kind)) => site_size(kind),
        Some(Asked::Call) | None => INSTRUCTION_BYTES,
    }
}

/// Whether an AUIPC with the high part of a relative address stands at the place.
pub(crate) fn is_high(asked: Option<Asked>) -> bool
    ensures { result ≡ spec.is_high asked }
{
    match asked {
        Some(Asked::Field(kind)) => is_high_kind(kind),
        Some(Asked::Call) => true,
        None => false,
    }
}

fn is_high_kind(kind: RelocationKind) -> bool
    ensures { result ≡ spec.is_high_kind kind }
{
    match kind {
        RelocationKind::PcrelHi20 => true,
        _ => false,
    }
}
