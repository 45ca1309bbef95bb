// Computations on the low 32 bits, whose results are sign-extended.

ghost use Rattle.std.specs.Prelude.{◌≡◌, ◌<◌, ◌%◌};
ghost use Rattle.spec_processor.specs.Effects as table;

use crate::divide::{quotient_low, quotient_unsigned_low, remainder_low, remainder_unsigned_low};
use crate::word::{low_word, sign_extend, sign_extended, signed_low};
use rv64_decode::{Op32Op, OpImm32Op};

// The low 5 bits of a shift's operand are its count.
#[inline(always)]
fn count(b: u64) -> u32
    ensures { result ≡ b % 32 }
{
    (b % 32) as u32
}

#[inline(always)]
fn shift_left(a: u64, count: u32) -> u64
    requires { count < 32 }
    ensures { result ≡ table.shift_left_low a count }
{
    sign_extend(a.wrapping_shl(count))
}

#[inline(always)]
fn shift_right(a: u64, count: u32) -> u64
    requires { count < 32 }
    ensures { result ≡ table.shift_right_low a count }
{
    sign_extend(u64::from(low_word(a).wrapping_shr(count)))
}

#[inline(always)]
fn shift_right_signed(a: u64, count: u32) -> u64
    requires { count < 32 }
    ensures { result ≡ table.shift_right_signed_low a count }
{
    sign_extended(signed_low(a).wrapping_shr(count))
}

#[tactic(auto, unfolding(spec_processor::specs::Effects::op_32_value))]
#[inline(always)]
pub fn op_32(op: Op32Op, a: u64, b: u64) -> u64
    ensures { result ≡ table.op_32_value op a b }
{
    match op {
        Op32Op::Addw => sign_extend(a.wrapping_add(b)),
        Op32Op::Subw => sign_extend(a.wrapping_sub(b)),
        Op32Op::Sllw => shift_left(a, count(b)),
        Op32Op::Srlw => shift_right(a, count(b)),
        Op32Op::Sraw => shift_right_signed(a, count(b)),
        Op32Op::Mulw => sign_extend(a.wrapping_mul(b)),
        Op32Op::Divw => quotient_low(a, b),
        Op32Op::Divuw => quotient_unsigned_low(a, b),
        Op32Op::Remw => remainder_low(a, b),
        Op32Op::Remuw => remainder_unsigned_low(a, b),
    }
}

#[tactic(auto, unfolding(spec_processor::specs::Effects::op_imm_32_value))]
#[inline(always)]
pub fn op_imm_32(op: OpImm32Op, a: u64, imm: u64, shamt: u8) -> u64
    requires { shamt < 32 }
    ensures { result ≡ table.op_imm_32_value op a imm shamt }
{
    match op {
        OpImm32Op::Addiw => sign_extend(a.wrapping_add(imm)),
        OpImm32Op::Slliw => shift_left(a, u32::from(shamt)),
        OpImm32Op::Srliw => shift_right(a, u32::from(shamt)),
        OpImm32Op::Sraiw => shift_right_signed(a, u32::from(shamt)),
    }
}
