// The function codes of the operations.

ghost use Rattle.std.specs.Prelude.{◌≡◌, ◌<◌};
ghost use Rattle.spec_processor.specs.Encoding as table;

use rv64_decode::{
    AmoOp, BranchOp, CsrOp, HyperOp, LoadOp, Op32Op, OpImm32Op, OpImmOp, OpOp, StoreOp,
};

#[tactic(auto, unfolding(spec_processor::specs::Encoding::branch_funct3))]
pub fn branch_funct3(op: BranchOp) -> u32
    ensures value { result ≡ table.branch_funct3 op }
    ensures bound { result < 8 }
{
    match op {
        BranchOp::Beq => 0,
        BranchOp::Bne => 1,
        BranchOp::Blt => 4,
        BranchOp::Bge => 5,
        BranchOp::Bltu => 6,
        BranchOp::Bgeu => 7,
    }
}

#[tactic(auto, unfolding(spec_processor::specs::Encoding::load_funct3))]
pub fn load_funct3(op: LoadOp) -> u32
    ensures value { result ≡ table.load_funct3 op }
    ensures bound { result < 8 }
{
    match op {
        LoadOp::Lb => 0,
        LoadOp::Lh => 1,
        LoadOp::Lw => 2,
        LoadOp::Ld => 3,
        LoadOp::Lbu => 4,
        LoadOp::Lhu => 5,
        LoadOp::Lwu => 6,
    }
}

#[tactic(auto, unfolding(spec_processor::specs::Encoding::store_funct3))]
pub fn store_funct3(op: StoreOp) -> u32
    ensures value { result ≡ table.store_funct3 op }
    ensures bound { result < 8 }
{
    match op {
        StoreOp::Sb => 0,
        StoreOp::Sh => 1,
        StoreOp::Sw => 2,
        StoreOp::Sd => 3,
    }
}

#[tactic(auto, unfolding(spec_processor::specs::Encoding::op_imm_funct3))]
pub fn op_imm_funct3(op: OpImmOp) -> u32
    ensures value { result ≡ table.op_imm_funct3 op }
    ensures bound { result < 8 }
{
    match op {
        OpImmOp::Addi => 0,
        OpImmOp::Slti => 2,
        OpImmOp::Sltiu => 3,
        OpImmOp::Xori => 4,
        OpImmOp::Ori => 6,
        OpImmOp::Andi => 7,
        OpImmOp::Slli => 1,
        _ => 5,
    }
}

#[tactic(auto, unfolding(spec_processor::specs::Encoding::op_imm_32_funct3))]
pub fn op_imm_32_funct3(op: OpImm32Op) -> u32
    ensures value { result ≡ table.op_imm_32_funct3 op }
    ensures bound { result < 8 }
{
    match op {
        OpImm32Op::Addiw => 0,
        OpImm32Op::Slliw => 1,
        _ => 5,
    }
}

#[tactic(auto, unfolding(spec_processor::specs::Encoding::arithmetic_bit))]
pub fn arithmetic_bit(op: OpImmOp) -> u32
    ensures value { result ≡ table.arithmetic_bit op }
    ensures bound { result < 2048 }
{
    match op {
        OpImmOp::Srai => 0x400,
        _ => 0,
    }
}

#[tactic(auto, unfolding(spec_processor::specs::Encoding::arithmetic_bit_32))]
pub fn arithmetic_bit_32(op: OpImm32Op) -> u32
    ensures value { result ≡ table.arithmetic_bit_32 op }
    ensures bound { result < 2048 }
{
    match op {
        OpImm32Op::Sraiw => 0x400,
        _ => 0,
    }
}

#[tactic(auto, unfolding(spec_processor::specs::Encoding::op_funct7))]
pub fn op_funct7(op: OpOp) -> u32
    ensures value { result ≡ table.op_funct7 op }
    ensures bound { result < 128 }
{
    match op {
        OpOp::Sub | OpOp::Sra => 0x20,
        OpOp::Add
        | OpOp::Sll
        | OpOp::Slt
        | OpOp::Sltu
        | OpOp::Xor
        | OpOp::Srl
        | OpOp::Or
        | OpOp::And => 0x00,
        _ => 0x01,
    }
}

#[tactic(auto, unfolding(spec_processor::specs::Encoding::op_funct3))]
pub fn op_funct3(op: OpOp) -> u32
    ensures value { result ≡ table.op_funct3 op }
    ensures bound { result < 8 }
{
    match op {
        OpOp::Sll | OpOp::Mulh => 1,
        OpOp::Slt | OpOp::Mulhsu => 2,
        OpOp::Sltu | OpOp::Mulhu => 3,
        OpOp::Xor | OpOp::Div => 4,
        OpOp::Or | OpOp::Rem => 6,
        OpOp::And | OpOp::Remu => 7,
        OpOp::Add | OpOp::Sub | OpOp::Mul => 0,
        _ => 5,
    }
}

#[tactic(auto, unfolding(spec_processor::specs::Encoding::op_32_funct7))]
pub fn op_32_funct7(op: Op32Op) -> u32
    ensures value { result ≡ table.op_32_funct7 op }
    ensures bound { result < 128 }
{
    match op {
        Op32Op::Subw | Op32Op::Sraw => 0x20,
        Op32Op::Addw | Op32Op::Sllw | Op32Op::Srlw => 0x00,
        _ => 0x01,
    }
}

#[tactic(auto, unfolding(spec_processor::specs::Encoding::op_32_funct3))]
pub fn op_32_funct3(op: Op32Op) -> u32
    ensures value { result ≡ table.op_32_funct3 op }
    ensures bound { result < 8 }
{
    match op {
        Op32Op::Sllw => 1,
        Op32Op::Divw => 4,
        Op32Op::Remw => 6,
        Op32Op::Remuw => 7,
        Op32Op::Addw | Op32Op::Subw | Op32Op::Mulw => 0,
        _ => 5,
    }
}

#[tactic(auto, unfolding(spec_processor::specs::Encoding::csr_funct3))]
pub fn csr_funct3(op: CsrOp) -> u32
    ensures value { result ≡ table.csr_funct3 op }
    ensures bound { result < 8 }
{
    match op {
        CsrOp::Csrrw => 1,
        CsrOp::Csrrs => 2,
        CsrOp::Csrrc => 3,
        CsrOp::Csrrwi => 5,
        CsrOp::Csrrsi => 6,
        CsrOp::Csrrci => 7,
    }
}

#[tactic(auto, unfolding(spec_processor::specs::Encoding::amo_funct5))]
pub fn amo_funct5(op: AmoOp) -> u32
    ensures value { result ≡ table.amo_funct5 op }
    ensures bound { result < 32 }
{
    match op {
        AmoOp::Amoswap => 0x01,
        AmoOp::Amoadd => 0x00,
        AmoOp::Amoxor => 0x04,
        AmoOp::Amoand => 0x0C,
        AmoOp::Amoor => 0x08,
        AmoOp::Amomin => 0x10,
        AmoOp::Amomax => 0x14,
        AmoOp::Amominu => 0x18,
        AmoOp::Amomaxu => 0x1C,
    }
}

#[tactic(auto, unfolding(spec_processor::specs::Encoding::hyper_funct7))]
pub fn hyper_funct7(op: HyperOp) -> u32
    ensures value { result ≡ table.hyper_funct7 op }
    ensures bound { result < 128 }
{
    match op {
        HyperOp::HlvD => 0x36,
        HyperOp::HsvH => 0x33,
        HyperOp::HsvW => 0x35,
        HyperOp::HsvD => 0x37,
        HyperOp::HfenceVvma => 0x11,
        HyperOp::HlvB | HyperOp::HlvBu => 0x30,
        HyperOp::HsvB | HyperOp::HfenceGvma => 0x31,
        HyperOp::HlvH | HyperOp::HlvHu | HyperOp::HlvxHu => 0x32,
        _ => 0x34,
    }
}

#[tactic(auto, unfolding(spec_processor::specs::Encoding::hyper_funct3))]
pub fn hyper_funct3(op: HyperOp) -> u32
    ensures value { result ≡ table.hyper_funct3 op }
    ensures bound { result < 8 }
{
    match op {
        HyperOp::HfenceVvma | HyperOp::HfenceGvma => 0,
        _ => 4,
    }
}

#[tactic(auto, unfolding(spec_processor::specs::Encoding::hyper_number))]
pub fn hyper_number(op: HyperOp) -> u32
    ensures value { result ≡ table.hyper_number op }
    ensures bound { result < 4 }
{
    match op {
        HyperOp::HlvxHu | HyperOp::HlvxWu => 3,
        HyperOp::HlvBu | HyperOp::HlvHu | HyperOp::HlvWu => 1,
        _ => 0,
    }
}
