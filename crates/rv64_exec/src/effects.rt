// The effect of an instruction.

ghost use Rattle.std.specs.Prelude.{◌≡◌, IsTrue};
ghost use Rattle.spec_processor.specs.Effects as table;
ghost use Rattle.spec_processor.specs.Encoding.{fits};

use crate::compute::{branch_taken, op, op_imm};
use crate::compute_word::{op_32, op_imm_32};
use crate::registers::Regs;
use rv64_decode::{CsrOp, Instr, LoadOp, StoreOp};
use spec_processor::{Effect, INSTRUCTION_BYTES};

/// What an instruction whose fields are in range does on these registers at this pc, or asks of the rest of the machine.
#[tactic(auto, unfolding(spec_processor::specs::Effects::effect_of, spec_processor::specs::Encoding::fits))]
#[inline(always)]
pub fn effect(instr: &Instr, regs: &Regs, pc: u64) -> Effect
    requires { IsTrue (fits instr.now) }
    ensures { result ≡ table.effect_of instr.now regs.now pc }
{
    let next = pc.wrapping_add(INSTRUCTION_BYTES);
    match *instr {
        Instr::Lui { rd, imm } => set(rd, imm.cast_unsigned(), next),
        Instr::Auipc { rd, imm } => set(rd, offset(pc, imm), next),
        Instr::Jal { rd, imm } => jump(rd, next, offset(pc, imm)),
        Instr::Jalr { rd, rs1, imm } => jump(rd, next, even(offset(regs.get(rs1), imm))),
        Instr::Branch { op, rs1, rs2, imm } => branch(
            branch_taken(op, regs.get(rs1), regs.get(rs2)),
            offset(pc, imm),
            next,
        ),
        Instr::Load { op, rd, rs1, imm } => load(op, rd, offset(regs.get(rs1), imm)),
        Instr::Store { op, rs1, rs2, imm } => store(op, offset(regs.get(rs1), imm), regs.get(rs2)),
        Instr::OpImm {
            op,
            rd,
            rs1,
            imm,
            shamt,
        } => set(
            rd,
            op_imm(op, regs.get(rs1), imm.cast_unsigned(), shamt),
            next,
        ),
        Instr::OpImm32 {
            op,
            rd,
            rs1,
            imm,
            shamt,
        } => set(
            rd,
            op_imm_32(op, regs.get(rs1), imm.cast_unsigned(), shamt),
            next,
        ),
        Instr::Op {
            op: code,
            rd,
            rs1,
            rs2,
        } => set(rd, op(code, regs.get(rs1), regs.get(rs2)), next),
        Instr::Op32 { op, rd, rs1, rs2 } => set(rd, op_32(op, regs.get(rs1), regs.get(rs2)), next),
        Instr::Fence => Effect::Fence,
        Instr::FenceI => Effect::Fence,
        Instr::Ecall => Effect::Ecall,
        Instr::Ebreak => Effect::Ebreak,
        Instr::Sret => Effect::Sret,
        Instr::Wfi => Effect::Wfi,
        Instr::SfenceVma { .. } => Effect::SfenceVma,
        Instr::Csr { op, rd, rs1, csr } => access(op, rd, rs1, csr, regs.get(rs1)),
        Instr::Lr { rd, rs1, width, .. } => Effect::LoadReserved {
            rd,
            addr: regs.get(rs1),
            width,
        },
        Instr::Sc {
            rd,
            rs1,
            rs2,
            width,
            ..
        } => Effect::StoreConditional {
            rd,
            addr: regs.get(rs1),
            width,
            value: regs.get(rs2),
        },
        Instr::Amo {
            op,
            rd,
            rs1,
            rs2,
            width,
            ..
        } => Effect::Amo {
            rd,
            addr: regs.get(rs1),
            width,
            op,
            value: regs.get(rs2),
        },
        Instr::Hyper { .. } => Effect::Hyper,
    }
}

#[inline(always)]
fn set(rd: u8, value: u64, next: u64) -> Effect
    ensures { result ≡ Effect.Set rd value next }
{
    Effect::Set { rd, value, next }
}

#[inline(always)]
fn offset(base: u64, imm: i64) -> u64
    ensures { result ≡ table.plus base (table.immediate imm) }
{
    base.wrapping_add(imm.cast_unsigned())
}

// A jump's target has bit 0 cleared where a register gives it.
#[inline(always)]
fn even(target: u64) -> u64
    ensures { result ≡ table.even target }
{
    target - target % 2
}

#[inline(always)]
fn jump(rd: u8, link: u64, target: u64) -> Effect
    ensures { result ≡ table.jump rd link target }
{
    if target.is_multiple_of(INSTRUCTION_BYTES) {
        set(rd, link, target)
    } else {
        Effect::MisalignedJump { target }
    }
}

#[inline(always)]
fn branch(taken: bool, target: u64, next: u64) -> Effect
    ensures { result ≡ table.branch taken target next }
{
    if taken {
        jump(0, 0, target)
    } else {
        set(0, 0, next)
    }
}

#[tactic(auto, unfolding(spec_processor::specs::Effects::load_width, spec_processor::specs::Effects::load_signed))]
#[inline(always)]
fn load(op: LoadOp, rd: u8, addr: u64) -> Effect
    ensures { result ≡ Effect.Load rd addr (table.load_width op) (table.load_signed op) }
{
    let (width, signed) = match op {
        LoadOp::Lb => (1, true),
        LoadOp::Lh => (2, true),
        LoadOp::Lw => (4, true),
        LoadOp::Ld => (8, true),
        LoadOp::Lbu => (1, false),
        LoadOp::Lhu => (2, false),
        LoadOp::Lwu => (4, false),
    };
    Effect::Load {
        rd,
        addr,
        width,
        signed,
    }
}

#[tactic(auto, unfolding(spec_processor::specs::Effects::store_width))]
#[inline(always)]
fn store(op: StoreOp, addr: u64, value: u64) -> Effect
    ensures { result ≡ Effect.Store addr (table.store_width op) value }
{
    let width = match op {
        StoreOp::Sb => 1,
        StoreOp::Sh => 2,
        StoreOp::Sw => 4,
        StoreOp::Sd => 8,
    };
    Effect::Store { addr, width, value }
}

#[tactic(auto, unfolding(spec_processor::specs::Effects::csr_operand, spec_processor::specs::Effects::csr_writes))]
#[inline(always)]
fn access(op: CsrOp, rd: u8, rs1: u8, number: u16, register: u64) -> Effect
    ensures { result ≡ Effect.Csr rd number op (table.csr_operand op register rs1) (table.csr_writes op rs1) }
{
    let (value, writes) = match op {
        CsrOp::Csrrw => (register, true),
        CsrOp::Csrrs => (register, rs1 != 0),
        CsrOp::Csrrc => (register, rs1 != 0),
        CsrOp::Csrrwi => (u64::from(rs1), true),
        CsrOp::Csrrsi => (u64::from(rs1), rs1 != 0),
        CsrOp::Csrrci => (u64::from(rs1), rs1 != 0),
    };
    Effect::Csr {
        rd,
        number,
        op,
        value,
        writes,
    }
}
