// The instructions of the forms: which fields each keeps.

ghost use Rattle.std.specs.Prelude.{◌≡◌};
ghost use Rattle.spec_processor.specs.Instructions as table;

use crate::fields::{aq, bits, imm_b, imm_i, imm_j, imm_s, imm_u, rd, rl, rs1, rs2};
use spec_processor::{
    AmoOp, BranchOp, CsrOp, HyperOp, Instr, LoadOp, Op32Op, OpImm32Op, OpImmOp, OpOp, StoreOp,
};

pub fn lui(word: u32) -> Instr
    ensures { result ≡ table.lui word }
{
    Instr::Lui {
        rd: rd(word),
        imm: imm_u(word),
    }
}

pub fn auipc(word: u32) -> Instr
    ensures { result ≡ table.auipc word }
{
    Instr::Auipc {
        rd: rd(word),
        imm: imm_u(word),
    }
}

pub fn jal(word: u32) -> Instr
    ensures { result ≡ table.jal word }
{
    Instr::Jal {
        rd: rd(word),
        imm: imm_j(word),
    }
}

pub fn jalr(word: u32) -> Instr
    ensures { result ≡ table.jalr word }
{
    Instr::Jalr {
        rd: rd(word),
        rs1: rs1(word),
        imm: imm_i(word),
    }
}

pub fn branch(op: BranchOp, word: u32) -> Instr
    ensures { result ≡ table.branch op word }
{
    Instr::Branch {
        op,
        rs1: rs1(word),
        rs2: rs2(word),
        imm: imm_b(word),
    }
}

pub fn load(op: LoadOp, word: u32) -> Instr
    ensures { result ≡ table.load op word }
{
    Instr::Load {
        op,
        rd: rd(word),
        rs1: rs1(word),
        imm: imm_i(word),
    }
}

pub fn store(op: StoreOp, word: u32) -> Instr
    ensures { result ≡ table.store op word }
{
    Instr::Store {
        op,
        rs1: rs1(word),
        rs2: rs2(word),
        imm: imm_s(word),
    }
}

pub fn op_imm(op: OpImmOp, word: u32) -> Instr
    ensures { result ≡ table.op_imm op word }
{
    Instr::OpImm {
        op,
        rd: rd(word),
        rs1: rs1(word),
        imm: imm_i(word),
        shamt: 0,
    }
}

pub fn shift(op: OpImmOp, word: u32) -> Instr
    ensures { result ≡ table.shift op word }
{
    Instr::OpImm {
        op,
        rd: rd(word),
        rs1: rs1(word),
        imm: 0,
        shamt: bits(word, 20, 26) as u8,
    }
}

pub fn op_imm_32(op: OpImm32Op, word: u32) -> Instr
    ensures { result ≡ table.op_imm_32 op word }
{
    Instr::OpImm32 {
        op,
        rd: rd(word),
        rs1: rs1(word),
        imm: imm_i(word),
        shamt: 0,
    }
}

pub fn shift_32(op: OpImm32Op, word: u32) -> Instr
    ensures { result ≡ table.shift_32 op word }
{
    Instr::OpImm32 {
        op,
        rd: rd(word),
        rs1: rs1(word),
        imm: 0,
        shamt: bits(word, 20, 25) as u8,
    }
}

pub fn op(op: OpOp, word: u32) -> Instr
    ensures { result ≡ table.op_op op word }
{
    Instr::Op {
        op,
        rd: rd(word),
        rs1: rs1(word),
        rs2: rs2(word),
    }
}

pub fn op_32(op: Op32Op, word: u32) -> Instr
    ensures { result ≡ table.op_32 op word }
{
    Instr::Op32 {
        op,
        rd: rd(word),
        rs1: rs1(word),
        rs2: rs2(word),
    }
}

pub fn sfence(word: u32) -> Instr
    ensures { result ≡ table.sfence word }
{
    Instr::SfenceVma {
        rs1: rs1(word),
        rs2: rs2(word),
    }
}

pub fn csr(op: CsrOp, word: u32) -> Instr
    ensures { result ≡ table.csr op word }
{
    Instr::Csr {
        op,
        rd: rd(word),
        rs1: rs1(word),
        csr: bits(word, 20, 32) as u16,
    }
}

pub fn lr(width: u8, word: u32) -> Instr
    ensures { result ≡ table.lr width word }
{
    Instr::Lr {
        rd: rd(word),
        rs1: rs1(word),
        width,
        aq: aq(word),
        rl: rl(word),
    }
}

pub fn sc(width: u8, word: u32) -> Instr
    ensures { result ≡ table.sc width word }
{
    Instr::Sc {
        rd: rd(word),
        rs1: rs1(word),
        rs2: rs2(word),
        width,
        aq: aq(word),
        rl: rl(word),
    }
}

pub fn amo(op: AmoOp, width: u8, word: u32) -> Instr
    ensures { result ≡ table.amo op width word }
{
    Instr::Amo {
        op,
        rd: rd(word),
        rs1: rs1(word),
        rs2: rs2(word),
        width,
        aq: aq(word),
        rl: rl(word),
    }
}

pub fn hyper_load(op: HyperOp, word: u32) -> Instr
    ensures { result ≡ table.hyper_load op word }
{
    Instr::Hyper {
        op,
        rd: rd(word),
        rs1: rs1(word),
        rs2: 0,
    }
}

pub fn hyper_store(op: HyperOp, word: u32) -> Instr
    ensures { result ≡ table.hyper_store op word }
{
    Instr::Hyper {
        op,
        rd: 0,
        rs1: rs1(word),
        rs2: rs2(word),
    }
}
