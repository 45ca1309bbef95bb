// Words of jumps, branches and computations.

ghost use Rattle.std.specs.Prelude.{◌≡◌};
ghost use Rattle.spec_processor.specs.Instructions as table;
ghost use Rattle.spec_processor.specs.Opcodes.{branch_opcode, jalr_opcode, op_32_opcode, op_imm_32_opcode, op_imm_opcode, op_opcode};

use crate::fields::{bits, funct3, funct7};
use crate::forms;
use spec_processor::{BranchOp, Instr, Op32Op, OpImm32Op, OpImmOp, OpOp};

pub fn jalr(word: u32) -> Option<Instr>
    requires { table.bits word 0 7 ≡ jalr_opcode }
    ensures { result ≡ table.instruction_of word }
{
    if funct3(word) == 0 {
        Some(forms::jalr(word))
    } else {
        None
    }
}

pub fn branch(word: u32) -> Option<Instr>
    requires { table.bits word 0 7 ≡ branch_opcode }
    ensures { result ≡ table.instruction_of word }
{
    let op = match funct3(word) {
        0 => BranchOp::Beq,
        1 => BranchOp::Bne,
        4 => BranchOp::Blt,
        5 => BranchOp::Bge,
        6 => BranchOp::Bltu,
        7 => BranchOp::Bgeu,
        _ => return None,
    };
    Some(forms::branch(op, word))
}

// A shift has its direction in bits 26 to 31; the six bits below them are its count.
pub fn op_imm(word: u32) -> Option<Instr>
    requires { table.bits word 0 7 ≡ op_imm_opcode }
    ensures { result ≡ table.instruction_of word }
{
    let op = match funct3(word) {
        0 => OpImmOp::Addi,
        1 => return shift_left(word),
        2 => OpImmOp::Slti,
        3 => OpImmOp::Sltiu,
        4 => OpImmOp::Xori,
        5 => return shift_right(word),
        6 => OpImmOp::Ori,
        _ => OpImmOp::Andi,
    };
    Some(forms::op_imm(op, word))
}

fn shift_left(word: u32) -> Option<Instr>
    requires opcode { table.bits word 0 7 ≡ op_imm_opcode }
    requires funct3 { table.bits word 12 15 ≡ 1 }
    ensures { result ≡ table.instruction_of word }
{
    if bits(word, 26, 32) == 0 {
        Some(forms::shift(OpImmOp::Slli, word))
    } else {
        None
    }
}

fn shift_right(word: u32) -> Option<Instr>
    requires opcode { table.bits word 0 7 ≡ op_imm_opcode }
    requires funct3 { table.bits word 12 15 ≡ 5 }
    ensures { result ≡ table.instruction_of word }
{
    match bits(word, 26, 32) {
        0x00 => Some(forms::shift(OpImmOp::Srli, word)),
        0x10 => Some(forms::shift(OpImmOp::Srai, word)),
        _ => None,
    }
}

pub fn op_imm_32(word: u32) -> Option<Instr>
    requires { table.bits word 0 7 ≡ op_imm_32_opcode }
    ensures { result ≡ table.instruction_of word }
{
    match funct3(word) {
        0 => Some(forms::op_imm_32(OpImm32Op::Addiw, word)),
        1 => shift_left_32(word),
        5 => shift_right_32(word),
        _ => None,
    }
}

fn shift_left_32(word: u32) -> Option<Instr>
    requires opcode { table.bits word 0 7 ≡ op_imm_32_opcode }
    requires funct3 { table.bits word 12 15 ≡ 1 }
    ensures { result ≡ table.instruction_of word }
{
    if funct7(word) == 0 {
        Some(forms::shift_32(OpImm32Op::Slliw, word))
    } else {
        None
    }
}

fn shift_right_32(word: u32) -> Option<Instr>
    requires opcode { table.bits word 0 7 ≡ op_imm_32_opcode }
    requires funct3 { table.bits word 12 15 ≡ 5 }
    ensures { result ≡ table.instruction_of word }
{
    match funct7(word) {
        0x00 => Some(forms::shift_32(OpImm32Op::Srliw, word)),
        0x20 => Some(forms::shift_32(OpImm32Op::Sraiw, word)),
        _ => None,
    }
}

pub fn op(word: u32) -> Option<Instr>
    requires { table.bits word 0 7 ≡ op_opcode }
    ensures { result ≡ table.instruction_of word }
{
    match funct7(word) {
        0x00 => base_op(word),
        0x01 => multiply_op(word),
        0x20 => alternate_op(word),
        _ => None,
    }
}

fn base_op(word: u32) -> Option<Instr>
    requires opcode { table.bits word 0 7 ≡ op_opcode }
    requires funct7 { table.bits word 25 32 ≡ 0x00 }
    ensures { result ≡ table.instruction_of word }
{
    let op = match funct3(word) {
        0 => OpOp::Add,
        1 => OpOp::Sll,
        2 => OpOp::Slt,
        3 => OpOp::Sltu,
        4 => OpOp::Xor,
        5 => OpOp::Srl,
        6 => OpOp::Or,
        _ => OpOp::And,
    };
    Some(forms::op(op, word))
}

fn multiply_op(word: u32) -> Option<Instr>
    requires opcode { table.bits word 0 7 ≡ op_opcode }
    requires funct7 { table.bits word 25 32 ≡ 0x01 }
    ensures { result ≡ table.instruction_of word }
{
    let op = match funct3(word) {
        0 => OpOp::Mul,
        1 => OpOp::Mulh,
        2 => OpOp::Mulhsu,
        3 => OpOp::Mulhu,
        4 => OpOp::Div,
        5 => OpOp::Divu,
        6 => OpOp::Rem,
        _ => OpOp::Remu,
    };
    Some(forms::op(op, word))
}

fn alternate_op(word: u32) -> Option<Instr>
    requires opcode { table.bits word 0 7 ≡ op_opcode }
    requires funct7 { table.bits word 25 32 ≡ 0x20 }
    ensures { result ≡ table.instruction_of word }
{
    match funct3(word) {
        0 => Some(forms::op(OpOp::Sub, word)),
        5 => Some(forms::op(OpOp::Sra, word)),
        _ => None,
    }
}

pub fn op_32(word: u32) -> Option<Instr>
    requires { table.bits word 0 7 ≡ op_32_opcode }
    ensures { result ≡ table.instruction_of word }
{
    match funct7(word) {
        0x00 => base_op_32(word),
        0x01 => multiply_op_32(word),
        0x20 => alternate_op_32(word),
        _ => None,
    }
}

fn base_op_32(word: u32) -> Option<Instr>
    requires opcode { table.bits word 0 7 ≡ op_32_opcode }
    requires funct7 { table.bits word 25 32 ≡ 0x00 }
    ensures { result ≡ table.instruction_of word }
{
    match funct3(word) {
        0 => Some(forms::op_32(Op32Op::Addw, word)),
        1 => Some(forms::op_32(Op32Op::Sllw, word)),
        5 => Some(forms::op_32(Op32Op::Srlw, word)),
        _ => None,
    }
}

fn multiply_op_32(word: u32) -> Option<Instr>
    requires opcode { table.bits word 0 7 ≡ op_32_opcode }
    requires funct7 { table.bits word 25 32 ≡ 0x01 }
    ensures { result ≡ table.instruction_of word }
{
    let op = match funct3(word) {
        0 => Op32Op::Mulw,
        4 => Op32Op::Divw,
        5 => Op32Op::Divuw,
        6 => Op32Op::Remw,
        7 => Op32Op::Remuw,
        _ => return None,
    };
    Some(forms::op_32(op, word))
}

fn alternate_op_32(word: u32) -> Option<Instr>
    requires opcode { table.bits word 0 7 ≡ op_32_opcode }
    requires funct7 { table.bits word 25 32 ≡ 0x20 }
    ensures { result ≡ table.instruction_of word }
{
    match funct3(word) {
        0 => Some(forms::op_32(Op32Op::Subw, word)),
        5 => Some(forms::op_32(Op32Op::Sraw, word)),
        _ => None,
    }
}
