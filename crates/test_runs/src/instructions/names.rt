// The names that objdump gives to instructions, without their dots.

use rv64_decode::Instr;
use std::alloc::{AllocError, Global};

fn ordered_name(
    alloc: Global,
    name: &str,
    width: u8,
    aq: bool,
    rl: bool,
) -> Result<String, AllocError> {
    let size = if width == 4 { "w" } else { "d" };
    let acquire = if aq { "aq" } else { "" };
    let release = if rl { "rl" } else { "" };
    format!(in alloc; "{name}{size}{acquire}{release}")
}

/// The name of an instruction: of its operation, with the width and the ordering of an atomic one.
pub fn name_of(alloc: Global, instr: &Instr) -> Result<String, AllocError> {
    match *instr {
        Instr::Branch { op, .. } => format!(in alloc; "{op:?}"),
        Instr::Load { op, .. } => format!(in alloc; "{op:?}"),
        Instr::Store { op, .. } => format!(in alloc; "{op:?}"),
        Instr::OpImm { op, .. } => format!(in alloc; "{op:?}"),
        Instr::OpImm32 { op, .. } => format!(in alloc; "{op:?}"),
        Instr::Op { op, .. } => format!(in alloc; "{op:?}"),
        Instr::Op32 { op, .. } => format!(in alloc; "{op:?}"),
        Instr::Csr { op, .. } => format!(in alloc; "{op:?}"),
        Instr::Hyper { op, .. } => format!(in alloc; "{op:?}"),
        Instr::Lr { width, aq, rl, .. } => ordered_name(alloc, "Lr", width, aq, rl),
        Instr::Sc { width, aq, rl, .. } => ordered_name(alloc, "Sc", width, aq, rl),
        Instr::Amo {
            op,
            width,
            aq,
            rl,
            ..
        } => {
            let name = format!(in alloc; "{op:?}")?;
            ordered_name(alloc, name.as_str(), width, aq, rl)
        }
        Instr::Lui { .. } => format!(in alloc; "Lui"),
        Instr::Auipc { .. } => format!(in alloc; "Auipc"),
        Instr::Jal { .. } => format!(in alloc; "Jal"),
        Instr::Jalr { .. } => format!(in alloc; "Jalr"),
        Instr::SfenceVma { .. } => format!(in alloc; "SfenceVma"),
        Instr::Fence => format!(in alloc; "Fence"),
        Instr::FenceI => format!(in alloc; "FenceI"),
        Instr::Ecall => format!(in alloc; "Ecall"),
        Instr::Ebreak => format!(in alloc; "Ebreak"),
        Instr::Sret => format!(in alloc; "Sret"),
        Instr::Wfi => format!(in alloc; "Wfi"),
    }
}
