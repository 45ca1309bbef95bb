// Computations on machine words.

ghost use Rattle.std.specs.Prelude.{◌≡◌, ◌<◌, ◌*◌, ◌/◌, ◌%◌, ◌^◌, ◌*ℤ◌, pos};
ghost use Rattle.spec_processor.specs.Effects as table;

use crate::divide::{quotient, quotient_unsigned, remainder, remainder_unsigned};
use rv64_decode::{BranchOp, OpImmOp, OpOp};

// The low 6 bits of a shift's operand are its count.
#[inline(always)]
fn count(b: u64) -> u32
    ensures { result ≡ b % 64 }
{
    (b % 64) as u32
}

#[inline(always)]
fn shift_left(a: u64, count: u32) -> u64
    requires { count < 64 }
    ensures { result ≡ table.shift_left a count }
{
    a.wrapping_shl(count)
}

#[inline(always)]
fn shift_right(a: u64, count: u32) -> u64
    requires { count < 64 }
    ensures { result ≡ table.shift_right a count }
{
    a.wrapping_shr(count)
}

#[inline(always)]
fn shift_right_signed(a: u64, count: u32) -> u64
    requires { count < 64 }
    ensures { result ≡ table.shift_right_signed a count }
{
    a.cast_signed().wrapping_shr(count).cast_unsigned()
}

#[inline(always)]
fn upper_signed(a: u64, b: u64) -> u64
    ensures { result ≡ table.upper (table.signed_word a *ℤ table.signed_word b) }
{
    let product = i128::from(a.cast_signed()) * i128::from(b.cast_signed());
    (product.cast_unsigned() >> 64) as u64
}

#[inline(always)]
fn upper_mixed(a: u64, b: u64) -> u64
    ensures { result ≡ table.upper (table.signed_word a *ℤ pos b) }
{
    let product = i128::from(a.cast_signed()) * i128::from(b);
    (product.cast_unsigned() >> 64) as u64
}

#[inline(always)]
fn upper_unsigned(a: u64, b: u64) -> u64
    ensures { result ≡ a * b / 2 ^ 64 }
{
    ((u128::from(a) * u128::from(b)) >> 64) as u64
}

#[tactic(auto, unfolding(spec_processor::specs::Effects::op_value))]
#[inline(always)]
pub fn op(op: OpOp, a: u64, b: u64) -> u64
    ensures { result ≡ table.op_value op a b }
{
    match op {
        OpOp::Add => a.wrapping_add(b),
        OpOp::Sub => a.wrapping_sub(b),
        OpOp::Sll => shift_left(a, count(b)),
        OpOp::Slt => u64::from(a.cast_signed() < b.cast_signed()),
        OpOp::Sltu => u64::from(a < b),
        OpOp::Xor => a ^ b,
        OpOp::Srl => shift_right(a, count(b)),
        OpOp::Sra => shift_right_signed(a, count(b)),
        OpOp::Or => a | b,
        OpOp::And => a & b,
        OpOp::Mul => a.wrapping_mul(b),
        OpOp::Mulh => upper_signed(a, b),
        OpOp::Mulhsu => upper_mixed(a, b),
        OpOp::Mulhu => upper_unsigned(a, b),
        OpOp::Div => quotient(a, b),
        OpOp::Divu => quotient_unsigned(a, b),
        OpOp::Rem => remainder(a, b),
        OpOp::Remu => remainder_unsigned(a, b),
    }
}

#[tactic(auto, unfolding(spec_processor::specs::Effects::op_imm_value))]
#[inline(always)]
pub fn op_imm(op: OpImmOp, a: u64, imm: u64, shamt: u8) -> u64
    requires { shamt < 64 }
    ensures { result ≡ table.op_imm_value op a imm shamt }
{
    match op {
        OpImmOp::Addi => a.wrapping_add(imm),
        OpImmOp::Slti => u64::from(a.cast_signed() < imm.cast_signed()),
        OpImmOp::Sltiu => u64::from(a < imm),
        OpImmOp::Xori => a ^ imm,
        OpImmOp::Ori => a | imm,
        OpImmOp::Andi => a & imm,
        OpImmOp::Slli => shift_left(a, u32::from(shamt)),
        OpImmOp::Srli => shift_right(a, u32::from(shamt)),
        OpImmOp::Srai => shift_right_signed(a, u32::from(shamt)),
    }
}

#[tactic(auto, unfolding(spec_processor::specs::Effects::branch_taken))]
#[inline(always)]
pub fn branch_taken(op: BranchOp, a: u64, b: u64) -> bool
    ensures { result ≡ table.branch_taken op a b }
{
    match op {
        BranchOp::Beq => a == b,
        BranchOp::Bne => a != b,
        BranchOp::Blt => a.cast_signed() < b.cast_signed(),
        BranchOp::Bge => a.cast_signed() >= b.cast_signed(),
        BranchOp::Bltu => a < b,
        BranchOp::Bgeu => a >= b,
    }
}
