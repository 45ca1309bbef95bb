// The text of an instruction: a mnemonic and its operands.

ghost use Rattle.std.specs.Prelude.{◌≡◌, IfOk, string_bytes};
ghost use Rattle.spec_processor.specs.Encoding.{is_shift, is_shift_32};
ghost use Rattle.rv64_encode.specs.Texts as spec;

use crate::text::mnemonics::{
    amo_name, branch_name, csr_name, csr_op_name, hyper_name, load_name, op_32_name,
    op_imm_32_name, op_imm_name, op_name, order_suffix, register_name, store_name, width_suffix,
};
use spec_processor::{Csr, CsrOp, HyperOp, Instr, OpImm32Op, OpImmOp};
use std::alloc::{AllocError, Global};

// ---- operands

fn hexadecimal(alloc: Global, number: u64) -> Result<String, AllocError>
    ensures { IfOk result (λ t. string_bytes t ≡ spec.hexadecimal number) }
{
    format!(in alloc; "0x{number:x}")
}

// The 20 bits of an upper immediate.
fn upper_text(alloc: Global, imm: i64) -> Result<String, AllocError>
    ensures { IfOk result (λ t. string_bytes t ≡ spec.upper_text imm) }
{
    hexadecimal(alloc, imm.cast_unsigned() / 4096 % 1_048_576)
}

// Where a jump or a branch leads, from the instruction on.
fn target_text(alloc: Global, imm: i64) -> Result<String, AllocError>
    ensures { IfOk result (λ t. string_bytes t ≡ spec.target_text imm) }
{
    if imm < 0 {
        format!(in alloc; ".{imm}")
    } else {
        format!(in alloc; ".+{imm}")
    }
}

fn csr_text(alloc: Global, number: u16) -> Result<String, AllocError>
    ensures { IfOk result (λ t. string_bytes t ≡ spec.csr_text number) }
{
    match Csr::from_number(number) {
        Some(csr) => String::from_str(alloc, csr_name(csr)),
        None => hexadecimal(alloc, number as u64),
    }
}

fn number_text(alloc: Global, number: u8) -> Result<String, AllocError>
    ensures { IfOk result (λ t. string_bytes t ≡ spec.number_text number) }
{
    format!(in alloc; "{number}")
}

fn signed_text(alloc: Global, number: i64) -> Result<String, AllocError>
    ensures { IfOk result (λ t. string_bytes t ≡ spec.signed_text number) }
{
    format!(in alloc; "{number}")
}

// A register, or the immediate that stands in its place.
fn csr_source(alloc: Global, op: CsrOp, rs1: u8) -> Result<String, AllocError>
    ensures { IfOk result (λ t. string_bytes t ≡ spec.csr_source op rs1) }
{
    match op {
        CsrOp::Csrrw | CsrOp::Csrrs | CsrOp::Csrrc => String::from_str(alloc, register_name(rs1)),
        CsrOp::Csrrwi | CsrOp::Csrrsi | CsrOp::Csrrci => number_text(alloc, rs1),
    }
}

#[tactic(auto, unfolding(spec_processor::specs::Encoding::is_shift))]
fn is_shift(op: OpImmOp) -> bool
    ensures { result ≡ is_shift op }
{
    match op {
        OpImmOp::Slli | OpImmOp::Srli | OpImmOp::Srai => true,
        OpImmOp::Addi
        | OpImmOp::Slti
        | OpImmOp::Sltiu
        | OpImmOp::Xori
        | OpImmOp::Ori
        | OpImmOp::Andi => false,
    }
}

#[tactic(auto, unfolding(spec_processor::specs::Encoding::is_shift_32))]
fn is_shift_32(op: OpImm32Op) -> bool
    ensures { result ≡ is_shift_32 op }
{
    match op {
        OpImm32Op::Slliw | OpImm32Op::Srliw | OpImm32Op::Sraiw => true,
        OpImm32Op::Addiw => false,
    }
}

// A shift by an immediate has its amount.
fn operand_text(alloc: Global, shifts: bool, imm: i64, shamt: u8) -> Result<String, AllocError>
    ensures { IfOk result (λ t. string_bytes t ≡ spec.operand_text shifts imm shamt) }
{
    if shifts {
        hexadecimal(alloc, shamt as u64)
    } else {
        signed_text(alloc, imm)
    }
}

// ---- forms

#[tactic(auto, unfolding(crate::specs::Texts::two))]
fn two(alloc: Global, name: &str, a: &str, b: &str) -> Result<String, AllocError>
    ensures { IfOk result (λ t. string_bytes t ≡ spec.two name.now a.now b.now) }
{
    format!(in alloc; "{name} {a},{b}")
}

#[tactic(auto, unfolding(crate::specs::Texts::three))]
fn three(alloc: Global, name: &str, a: &str, b: &str, c: &str) -> Result<String, AllocError>
    ensures { IfOk result (λ t. string_bytes t ≡ spec.three name.now a.now b.now c.now) }
{
    format!(in alloc; "{name} {a},{b},{c}")
}

#[tactic(auto, unfolding(crate::specs::Texts::at_offset))]
fn at_offset(
    alloc: Global,
    name: &str,
    value: &str,
    imm: i64,
    base: &str,
) -> Result<String, AllocError>
    ensures { IfOk result (λ t. string_bytes t ≡ spec.at_offset name.now value.now imm base.now) }
{
    format!(in alloc; "{name} {value},{imm}({base})")
}

#[tactic(auto, unfolding(crate::specs::Texts::at_address))]
fn at_address(alloc: Global, name: &str, value: &str, base: &str) -> Result<String, AllocError>
    ensures { IfOk result (λ t. string_bytes t ≡ spec.at_address name.now value.now base.now) }
{
    format!(in alloc; "{name} {value},({base})")
}

#[tactic(auto, unfolding(crate::specs::Texts::atomic_name))]
fn atomic_name(
    alloc: Global,
    name: &str,
    width: u8,
    aq: bool,
    rl: bool,
) -> Result<String, AllocError>
    ensures { IfOk result (λ t. string_bytes t ≡ spec.atomic_name name.now width aq rl) }
{
    let width = width_suffix(width);
    let order = order_suffix(aq, rl);
    format!(in alloc; "{name}{width}{order}")
}

#[tactic(auto, unfolding(crate::specs::Texts::atomic))]
fn atomic(alloc: Global, name: &str, rd: u8, rs2: u8, rs1: u8) -> Result<String, AllocError>
    ensures { IfOk result (λ t. string_bytes t ≡ spec.atomic name.now rd rs2 rs1) }
{
    let rd = register_name(rd);
    let rs2 = register_name(rs2);
    let rs1 = register_name(rs1);
    format!(in alloc; "{name} {rd},{rs2},({rs1})")
}

// ---- the forms that need a text first

fn upper(alloc: Global, name: &str, rd: u8, imm: i64) -> Result<String, AllocError>
    ensures { IfOk result (λ t. string_bytes t ≡ spec.upper name.now rd imm) }
{
    let imm = upper_text(alloc, imm)?;
    two(alloc, name, register_name(rd), imm.as_str())
}

fn jump(alloc: Global, rd: u8, imm: i64) -> Result<String, AllocError>
    ensures { IfOk result (λ t. string_bytes t ≡ spec.jump rd imm) }
{
    let target = target_text(alloc, imm)?;
    two(alloc, "jal", register_name(rd), target.as_str())
}

fn branch(alloc: Global, name: &str, rs1: u8, rs2: u8, imm: i64) -> Result<String, AllocError>
    ensures { IfOk result (λ t. string_bytes t ≡ spec.branch name.now rs1 rs2 imm) }
{
    let target = target_text(alloc, imm)?;
    three(
        alloc,
        name,
        register_name(rs1),
        register_name(rs2),
        target.as_str(),
    )
}

fn registers(alloc: Global, name: &str, rd: u8, rs1: u8, rs2: u8) -> Result<String, AllocError>
    ensures { IfOk result (λ t. string_bytes t ≡ spec.registers name.now rd rs1 rs2) }
{
    three(
        alloc,
        name,
        register_name(rd),
        register_name(rs1),
        register_name(rs2),
    )
}

fn op_imm(
    alloc: Global,
    op: OpImmOp,
    rd: u8,
    rs1: u8,
    imm: i64,
    shamt: u8,
) -> Result<String, AllocError>
    ensures { IfOk result (λ t. string_bytes t ≡ spec.op_imm op rd rs1 imm shamt) }
{
    let operand = operand_text(alloc, is_shift(op), imm, shamt)?;
    three(
        alloc,
        op_imm_name(op),
        register_name(rd),
        register_name(rs1),
        operand.as_str(),
    )
}

fn op_imm_32(
    alloc: Global,
    op: OpImm32Op,
    rd: u8,
    rs1: u8,
    imm: i64,
    shamt: u8,
) -> Result<String, AllocError>
    ensures { IfOk result (λ t. string_bytes t ≡ spec.op_imm_32 op rd rs1 imm shamt) }
{
    let operand = operand_text(alloc, is_shift_32(op), imm, shamt)?;
    three(
        alloc,
        op_imm_32_name(op),
        register_name(rd),
        register_name(rs1),
        operand.as_str(),
    )
}

fn csr(alloc: Global, op: CsrOp, rd: u8, rs1: u8, number: u16) -> Result<String, AllocError>
    ensures { IfOk result (λ t. string_bytes t ≡ spec.csr op rd rs1 number) }
{
    let csr = csr_text(alloc, number)?;
    let source = csr_source(alloc, op, rs1)?;
    three(
        alloc,
        csr_op_name(op),
        register_name(rd),
        csr.as_str(),
        source.as_str(),
    )
}

/// An atomic instruction's width in bytes and its ordering.
#[derive(Clone, Copy, Drop)]
struct Order {
    width: u8,
    aq: bool,
    rl: bool,
}

fn load_reserved(alloc: Global, order: Order, rd: u8, rs1: u8) -> Result<String, AllocError>
    ensures { IfOk result (λ t. string_bytes t ≡ spec.load_reserved order.width order.aq order.rl rd rs1) }
{
    let name = atomic_name(alloc, "lr", order.width, order.aq, order.rl)?;
    at_address(alloc, name.as_str(), register_name(rd), register_name(rs1))
}

fn atomic_operation(
    alloc: Global,
    name: &str,
    order: Order,
    rd: u8,
    rs2: u8,
    rs1: u8,
) -> Result<String, AllocError>
    ensures { IfOk result (λ t. string_bytes t ≡ spec.atomic_operation name.now order.width order.aq order.rl rd rs2 rs1) }
{
    let name = atomic_name(alloc, name, order.width, order.aq, order.rl)?;
    atomic(alloc, name.as_str(), rd, rs2, rs1)
}

#[tactic(auto, unfolding(crate::specs::Texts::hyper_text))]
fn hyper_text(alloc: Global, op: HyperOp, rd: u8, rs1: u8, rs2: u8) -> Result<String, AllocError>
    ensures { IfOk result (λ t. string_bytes t ≡ spec.hyper_text op rd rs1 rs2) }
{
    let name = hyper_name(op);
    match op {
        HyperOp::HlvB
        | HyperOp::HlvBu
        | HyperOp::HlvH
        | HyperOp::HlvHu
        | HyperOp::HlvxHu
        | HyperOp::HlvW
        | HyperOp::HlvWu
        | HyperOp::HlvxWu
        | HyperOp::HlvD => at_address(alloc, name, register_name(rd), register_name(rs1)),
        HyperOp::HsvB | HyperOp::HsvH | HyperOp::HsvW | HyperOp::HsvD => {
            at_address(alloc, name, register_name(rs2), register_name(rs1))
        }
        HyperOp::HfenceVvma | HyperOp::HfenceGvma => {
            two(alloc, name, register_name(rs1), register_name(rs2))
        }
    }
}

/// The text of an instruction: its mnemonic and its operands, as `sd a0,8(sp)`. Registers have their names of the calling
/// convention. A jump's or a branch's target is told from the instruction on, as `.+16`; a supervisor register by its name, and
/// any other by its number. Fails where memory runs out.
#[tactic(auto, unfolding(crate::specs::Texts::instruction_text))]
pub fn instruction_text(alloc: Global, instr: &Instr) -> Result<String, AllocError>
    ensures { IfOk result (λ t. string_bytes t ≡ spec.instruction_text instr.now) }
{
    match *instr {
        Instr::Lui { rd, imm } => upper(alloc, "lui", rd, imm),
        Instr::Auipc { rd, imm } => upper(alloc, "auipc", rd, imm),
        Instr::Jal { rd, imm } => jump(alloc, rd, imm),
        Instr::Jalr { rd, rs1, imm } => {
            at_offset(alloc, "jalr", register_name(rd), imm, register_name(rs1))
        }
        Instr::Branch { op, rs1, rs2, imm } => branch(alloc, branch_name(op), rs1, rs2, imm),
        Instr::Load { op, rd, rs1, imm } => at_offset(
            alloc,
            load_name(op),
            register_name(rd),
            imm,
            register_name(rs1),
        ),
        Instr::Store { op, rs1, rs2, imm } => at_offset(
            alloc,
            store_name(op),
            register_name(rs2),
            imm,
            register_name(rs1),
        ),
        Instr::OpImm {
            op,
            rd,
            rs1,
            imm,
            shamt,
        } => op_imm(alloc, op, rd, rs1, imm, shamt),
        Instr::OpImm32 {
            op,
            rd,
            rs1,
            imm,
            shamt,
        } => op_imm_32(alloc, op, rd, rs1, imm, shamt),
        Instr::Op { op, rd, rs1, rs2 } => registers(alloc, op_name(op), rd, rs1, rs2),
        Instr::Op32 { op, rd, rs1, rs2 } => registers(alloc, op_32_name(op), rd, rs1, rs2),
        Instr::SfenceVma { rs1, rs2 } => two(
            alloc,
            "sfence.vma",
            register_name(rs1),
            register_name(rs2),
        ),
        Instr::Csr {
            op,
            rd,
            rs1,
            csr: number,
        } => csr(alloc, op, rd, rs1, number),
        Instr::Lr {
            rd,
            rs1,
            width,
            aq,
            rl,
        } => load_reserved(alloc, Order { width, aq, rl }, rd, rs1),
        Instr::Sc {
            rd,
            rs1,
            rs2,
            width,
            aq,
            rl,
        } => atomic_operation(alloc, "sc", Order { width, aq, rl }, rd, rs2, rs1),
        Instr::Amo {
            op,
            rd,
            rs1,
            rs2,
            width,
            aq,
            rl,
        } => atomic_operation(alloc, amo_name(op), Order { width, aq, rl }, rd, rs2, rs1),
        Instr::Hyper { op, rd, rs1, rs2 } => hyper_text(alloc, op, rd, rs1, rs2),
        Instr::Fence => String::from_str(alloc, "fence"),
        Instr::FenceI => String::from_str(alloc, "fence.i"),
        Instr::Ecall => String::from_str(alloc, "ecall"),
        Instr::Ebreak => String::from_str(alloc, "ebreak"),
        Instr::Sret => String::from_str(alloc, "sret"),
        Instr::Wfi => String::from_str(alloc, "wfi"),
    }
}
