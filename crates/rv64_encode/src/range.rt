// Which instructions have a word.

ghost use Rattle.std.specs.Prelude.{◌≡◌, ◌<◌, ◌≤◌, ◌&&◌, ◌==◌, if◌then◌else◌};
ghost use Rattle.spec_processor.specs.Encoding as table;

use rv64_decode::{HyperOp, Instr, OpImm32Op, OpImmOp};
use spec_processor::REGISTERS;

/// Whether an instruction's fields are in range, so that a word encodes it.
#[tactic(auto, unfolding(spec_processor::specs::Encoding::fits))]
pub fn fits(instr: &Instr) -> bool
    ensures { result ≡ table.fits instr.now }
{
    match *instr {
        Instr::Lui { rd, imm } => register(rd) && immediate(32, 4096, imm),
        Instr::Auipc { rd, imm } => register(rd) && immediate(32, 4096, imm),
        Instr::Jal { rd, imm } => register(rd) && immediate(21, 2, imm),
        Instr::Jalr { rd, rs1, imm } => registers(rd, rs1) && immediate(12, 1, imm),
        Instr::Branch { rs1, rs2, imm, .. } => registers(rs1, rs2) && immediate(13, 2, imm),
        Instr::Load { rd, rs1, imm, .. } => registers(rd, rs1) && immediate(12, 1, imm),
        Instr::Store { rs1, rs2, imm, .. } => registers(rs1, rs2) && immediate(12, 1, imm),
        Instr::OpImm {
            op,
            rd,
            rs1,
            imm,
            shamt,
        } => registers(rd, rs1) && operand(is_shift(op), 64, imm, shamt),
        Instr::OpImm32 {
            op,
            rd,
            rs1,
            imm,
            shamt,
        } => registers(rd, rs1) && operand(is_shift_32(op), 32, imm, shamt),
        Instr::Op { rd, rs1, rs2, .. } => registers(rd, rs1) && register(rs2),
        Instr::Op32 { rd, rs1, rs2, .. } => registers(rd, rs1) && register(rs2),
        Instr::Fence => true,
        Instr::FenceI => true,
        Instr::Ecall => true,
        Instr::Ebreak => true,
        Instr::Sret => true,
        Instr::Wfi => true,
        Instr::SfenceVma { rs1, rs2 } => registers(rs1, rs2),
        Instr::Csr { rd, rs1, csr, .. } => registers(rd, rs1) && csr < 4096,
        Instr::Lr { rd, rs1, width, .. } => registers(rd, rs1) && is_width(width),
        Instr::Sc {
            rd,
            rs1,
            rs2,
            width,
            ..
        } => registers(rd, rs1) && register(rs2) && is_width(width),
        Instr::Amo {
            rd,
            rs1,
            rs2,
            width,
            ..
        } => registers(rd, rs1) && register(rs2) && is_width(width),
        Instr::Hyper { op, rd, rs1, rs2 } => registers(rd, rs1)
            && register(rs2)
            && fixed_field(op, rd, rs2),
    }
}

fn register(number: u8) -> bool
    ensures { result ≡ table.is_register number }
{
    usize::from(number) < REGISTERS
}

fn registers(first: u8, second: u8) -> bool
    ensures { result ≡ (table.is_register first && table.is_register second) }
{
    register(first) && register(second)
}

// A signed number of `bits` bits, a multiple of `step`.
fn immediate(bits: u32, step: u64, imm: i64) -> bool
    requires some { 0 < bits }
    requires most { bits ≤ 32 }
    requires divisor { 0 < step }
    ensures { result ≡ table.is_immediate bits step imm }
{
    let limit = 1i64 << (bits - 1);
    -limit <= imm && imm < limit && imm.unsigned_abs() % step == 0
}

fn operand(is_shift: bool, limit: u8, imm: i64, shamt: u8) -> bool
    ensures { result ≡ table.is_operand is_shift limit imm shamt }
{
    if is_shift {
        imm.unsigned_abs() == 0 && shamt < limit
    } else {
        immediate(12, 1, imm) && shamt == 0
    }
}

#[tactic(auto, unfolding(spec_processor::specs::Encoding::is_shift))]
fn is_shift(op: OpImmOp) -> bool
    ensures { result ≡ table.is_shift op }
{
    matches!(op, OpImmOp::Slli | OpImmOp::Srli | OpImmOp::Srai)
}

#[tactic(auto, unfolding(spec_processor::specs::Encoding::is_shift_32))]
fn is_shift_32(op: OpImm32Op) -> bool
    ensures { result ≡ table.is_shift_32 op }
{
    matches!(op, OpImm32Op::Slliw | OpImm32Op::Srliw | OpImm32Op::Sraiw)
}

fn is_width(width: u8) -> bool
    ensures { result ≡ table.is_width width }
{
    width == 4 || width == 8
}

// A hypervisor load has no rs2; a hypervisor store or fence has no rd.
fn fixed_field(op: HyperOp, rd: u8, rs2: u8) -> bool
    ensures { result ≡ (if table.is_hyper_load op then rs2 == 0 else rd == 0) }
{
    if is_hyper_load(op) { rs2 == 0 } else { rd == 0 }
}

#[tactic(auto, unfolding(spec_processor::specs::Encoding::is_hyper_load))]
fn is_hyper_load(op: HyperOp) -> bool
    ensures { result ≡ table.is_hyper_load op }
{
    match op {
        HyperOp::HsvB | HyperOp::HsvH | HyperOp::HsvW | HyperOp::HsvD => false,
        HyperOp::HfenceVvma | HyperOp::HfenceGvma => false,
        _ => true,
    }
}
