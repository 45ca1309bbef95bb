// The guest's instructions.

ghost use Rattle.std.specs.Prelude.{◌≡◌, ◌≤◌, IsTrue};
ghost use Rattle.std.specs.List.{list_all};
ghost use Rattle.spec_processor.specs.Encoding.{fits, is_immediate};
ghost use Rattle.guest_gen.specs.GuestCode as spec;

use rv64_encode::Instr;
use spec_processor::{
    A0, A7, BranchOp, Csr, CsrOp, OpImm32Op, OpImmOp, OpOp, PAGE_BYTES, S0, S1, StoreOp, T0, T1,
    T2, T3, T4, X0,
};
use sv_types::{
    BLOCK_ADDRESS, BLOCK_COMMAND, BLOCK_COUNT, BlockCommand, DISK_BASE, LOW_VALUES,
    PUT_CHAR_EXTENSION, SHUT_DOWN_EXTENSION,
};

/// A page, as an immediate.
const PAGE: i64 = PAGE_BYTES as i64;

/// The calls that print a byte and that shut down, as immediates.
const PRINT_CALL: i64 = PUT_CHAR_EXTENSION as i64;

const SHUTDOWN_CALL: i64 = SHUT_DOWN_EXTENSION as i64;

const LETTER_K: i64 = 75;

/// The most calls of the user.
pub const MAX_CALLS: u64 = 1_000_000;

/// The trap vector's place in the text.
pub const TRAP_OFFSET: usize = 256;

// The upper bits of a number, rounded so that the rest is one of 12 bits with a sign.
#[tactic(auto, unfolding(crate::specs::GuestCode::upper))]
fn upper(n: u64) -> i64
    requires { n ≤ spec.max_calls }
    ensures value { result ≡ spec.upper n }
    ensures fits { IsTrue (is_immediate 32 spec.low_values result) }
{
    ((n + LOW_VALUES / 2) / LOW_VALUES * LOW_VALUES) as i64
}

#[tactic(auto, unfolding(crate::specs::GuestCode::upper, crate::specs::GuestCode::lower))]
fn lower(n: u64) -> i64
    requires { n ≤ spec.max_calls }
    ensures value { result ≡ spec.lower n }
    ensures fits { IsTrue (is_immediate 12 1 result) }
{
    n as i64 - upper(n)
}

fn addi(rd: u8, rs1: u8, imm: i64) -> Instr
    ensures { result ≡ spec.addi rd rs1 imm }
{
    Instr::OpImm {
        op: OpImmOp::Addi,
        rd,
        rs1,
        imm,
        shamt: 0,
    }
}

fn addiw(rd: u8, rs1: u8, imm: i64) -> Instr
    ensures { result ≡ spec.addiw rd rs1 imm }
{
    Instr::OpImm32 {
        op: OpImm32Op::Addiw,
        rd,
        rs1,
        imm,
        shamt: 0,
    }
}

fn sw(rs2: u8, imm: i64, rs1: u8) -> Instr
    ensures { result ≡ spec.sw rs2 imm rs1 }
{
    Instr::Store {
        op: StoreOp::Sw,
        rs1,
        rs2,
        imm,
    }
}

fn sd(rs2: u8, imm: i64, rs1: u8) -> Instr
    ensures { result ≡ spec.sd rs2 imm rs1 }
{
    Instr::Store {
        op: StoreOp::Sd,
        rs1,
        rs2,
        imm,
    }
}

fn csrw(csr: Csr, rs1: u8) -> Instr
    ensures { result ≡ spec.csrw csr rs1 }
{
    Instr::Csr {
        op: CsrOp::Csrrw,
        rd: X0,
        rs1,
        csr: csr.number(),
    }
}

/// The kernel's begin, for so many calls.
#[tactic(auto, unfolding(crate::proofs::FieldBytes::setup_words))]
pub fn setup(calls: u64) -> [Instr; 16]
    requires { calls ≤ spec.max_calls }
    ensures code { result ≡ spec.setup calls }
    ensures fits { IsTrue (list_all fits result) }
{
    [
        Instr::Auipc { rd: T0, imm: 0 },
        addi(T0, T0, TRAP_OFFSET as i64),
        csrw(Csr::Stvec, T0),
        Instr::Auipc { rd: S1, imm: PAGE },
        addi(S1, S1, -12),
        Instr::Lui {
            rd: S0,
            imm: upper(calls),
        },
        addiw(S0, S0, lower(calls)),
        Instr::Lui {
            rd: T2,
            imm: DISK_BASE as i64,
        },
        addi(T3, T0, -768),
        sd(T3, BLOCK_ADDRESS as i64, T2),
        addi(T4, X0, 2),
        sw(T4, BLOCK_COUNT as i64, T2),
        addi(T4, X0, i64::from(BlockCommand::DiskToMemory.number())),
        sw(T4, BLOCK_COMMAND as i64, T2),
        csrw(Csr::Sepc, S1),
        Instr::Sret,
    ]
}

/// The trap vector.
#[tactic(auto, unfolding(crate::specs::GuestCode::trap_handler, spec_processor::specs::Encoding::fits, spec_processor::specs::Encoding::is_shift))]
pub fn trap_handler() -> [Instr; 12]
    ensures code { result ≡ spec.trap_handler }
    ensures fits { IsTrue (list_all fits result) }
{
    [
        Instr::Lui { rd: T1, imm: PAGE },
        Instr::Op {
            op: OpOp::Add,
            rd: T1,
            rs1: T1,
            rs2: S1,
        },
        sd(S0, 0, T1),
        addi(S0, S0, -1),
        Instr::Branch {
            op: BranchOp::Beq,
            rs1: S0,
            rs2: X0,
            imm: 12,
        },
        csrw(Csr::Sepc, S1),
        Instr::Sret,
        addi(A0, X0, LETTER_K),
        addi(A7, X0, PRINT_CALL),
        Instr::Ecall,
        addi(A7, X0, SHUTDOWN_CALL),
        Instr::Ecall,
    ]
}

/// The user's loop.
#[tactic(auto, unfolding(crate::specs::GuestCode::user_loop, spec_processor::specs::Encoding::fits))]
pub fn user_loop() -> [Instr; 2]
    ensures code { result ≡ spec.user_loop }
    ensures fits { IsTrue (list_all fits result) }
{
    [Instr::Ecall, Instr::Jal { rd: X0, imm: -4 }]
}
