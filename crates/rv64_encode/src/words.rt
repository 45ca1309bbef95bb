// Words by their fields.

ghost use Rattle.std.specs.Prelude.{◌≡◌, ◌+◌, ◌-◌, ◌^◌, ◌<◌, ◌≤◌, IsTrue};
ghost use Rattle.spec_processor.specs.Encoding as table;

use crate::codes;
use rv64_decode::{HyperOp, Instr};
use spec_processor::{
    AMO_OPCODE, AUIPC_OPCODE, BRANCH_OPCODE, EBREAK, ECALL, JAL_OPCODE, JALR_OPCODE, LOAD_OPCODE,
    LUI_OPCODE, OP_32_OPCODE, OP_IMM_32_OPCODE, OP_IMM_OPCODE, OP_OPCODE, SRET, STORE_OPCODE,
    SYSTEM_OPCODE, WFI,
};

/// The word of an instruction whose fields are in range.
#[tactic(auto, unfolding(spec_processor::specs::Encoding::fits, spec_processor::specs::Encoding::word_of))]
pub fn word(instr: &Instr) -> u32
    requires { IsTrue (table.fits instr.now) }
    ensures { result ≡ table.word_of instr.now }
{
    match *instr {
        Instr::Lui { rd, imm } => u_word(LUI_OPCODE, rd, imm),
        Instr::Auipc { rd, imm } => u_word(AUIPC_OPCODE, rd, imm),
        Instr::Jal { rd, imm } => j_word(JAL_OPCODE, rd, imm),
        Instr::Jalr { rd, rs1, imm } => i_word(JALR_OPCODE, 0, rd, rs1, field(imm, 0, 12)),
        Instr::Branch { op, rs1, rs2, imm } => b_word(
            BRANCH_OPCODE,
            codes::branch_funct3(op),
            rs1,
            rs2,
            imm,
        ),
        Instr::Load { op, rd, rs1, imm } => i_word(
            LOAD_OPCODE,
            codes::load_funct3(op),
            rd,
            rs1,
            field(imm, 0, 12),
        ),
        Instr::Store { op, rs1, rs2, imm } => s_word(
            STORE_OPCODE,
            codes::store_funct3(op),
            rs1,
            rs2,
            imm,
        ),
        Instr::OpImm {
            op,
            rd,
            rs1,
            imm,
            shamt,
        } => {
            let operand = field(imm, 0, 12) + u32::from(shamt) + codes::arithmetic_bit(op);
            i_word(OP_IMM_OPCODE, codes::op_imm_funct3(op), rd, rs1, operand)
        }
        Instr::OpImm32 {
            op,
            rd,
            rs1,
            imm,
            shamt,
        } => {
            let operand = field(imm, 0, 12) + u32::from(shamt) + codes::arithmetic_bit_32(op);
            i_word(
                OP_IMM_32_OPCODE,
                codes::op_imm_32_funct3(op),
                rd,
                rs1,
                operand,
            )
        }
        Instr::Op { op, rd, rs1, rs2 } => r_word(
            OP_OPCODE,
            codes::op_funct7(op),
            codes::op_funct3(op),
            u32::from(rd),
            rs1,
            rs2,
        ),
        Instr::Op32 { op, rd, rs1, rs2 } => r_word(
            OP_32_OPCODE,
            codes::op_32_funct7(op),
            codes::op_32_funct3(op),
            u32::from(rd),
            rs1,
            rs2,
        ),
        Instr::Fence => 0x0000_000F,
        Instr::FenceI => 0x0000_100F,
        Instr::Ecall => ECALL,
        Instr::Ebreak => EBREAK,
        Instr::Sret => SRET,
        Instr::Wfi => WFI,
        Instr::SfenceVma { rs1, rs2 } => r_word(SYSTEM_OPCODE, 0x09, 0, 0, rs1, rs2),
        Instr::Csr { op, rd, rs1, csr } => i_word(
            SYSTEM_OPCODE,
            codes::csr_funct3(op),
            rd,
            rs1,
            u32::from(csr),
        ),
        Instr::Lr {
            rd,
            rs1,
            width,
            aq,
            rl,
        } => r_word(
            AMO_OPCODE,
            amo_funct7(0x02, aq, rl),
            width_funct3(width),
            u32::from(rd),
            rs1,
            0,
        ),
        Instr::Sc {
            rd,
            rs1,
            rs2,
            width,
            aq,
            rl,
        } => r_word(
            AMO_OPCODE,
            amo_funct7(0x03, aq, rl),
            width_funct3(width),
            u32::from(rd),
            rs1,
            rs2,
        ),
        Instr::Amo {
            op,
            rd,
            rs1,
            rs2,
            width,
            aq,
            rl,
        } => {
            let code = amo_funct7(codes::amo_funct5(op), aq, rl);
            r_word(
                AMO_OPCODE,
                code,
                width_funct3(width),
                u32::from(rd),
                rs1,
                rs2,
            )
        }
        Instr::Hyper { op, rd, rs1, rs2 } => hyper_word(op, rd, rs1, rs2),
    }
}

// The function code of a width.
fn width_funct3(width: u8) -> u32
    ensures value { result ≡ table.width_funct3 width }
    ensures bound { result < 8 }
{
    if width == 4 { 2 } else { 3 }
}

// An atomic operation's code with its acquire and release bits.
fn amo_funct7(funct5: u32, aq: bool, rl: bool) -> u32
    requires { funct5 < 32 }
    ensures value { result ≡ table.amo_funct7 funct5 aq rl }
    ensures bound { result < 128 }
{
    4 * funct5 + 2 * u32::from(aq) + u32::from(rl)
}

#[tactic(auto, unfolding(crate::proofs::HypervisorForms::hypervisor_words))]
fn hyper_word(op: HyperOp, rd: u8, rs1: u8, rs2: u8) -> u32
    requires { IsTrue (table.fits (Instr.Hyper op rd rs1 rs2)) }
    ensures { result ≡ table.word_of (Instr.Hyper op rd rs1 rs2) }
{
    let number = rs2 + codes::hyper_number(op) as u8;
    r_word(
        SYSTEM_OPCODE,
        codes::hyper_funct7(op),
        codes::hyper_funct3(op),
        u32::from(rd),
        rs1,
        number,
    )
}

// The bits of an immediate from `low` up to below `high`.
fn field(imm: i64, low: u32, high: u32) -> u32
    requires some { low < high }
    requires width { high - low < 32 }
    requires within { high ≤ 32 }
    ensures value { result ≡ table.imm_bits imm low high }
    ensures bound { result < 2 ^ (high - low) }
{
    ((imm.cast_unsigned() >> low) % (1 << (high - low))) as u32
}

fn r_word(opcode: u32, funct7: u32, funct3: u32, rd: u32, rs1: u8, rs2: u8) -> u32
    requires opcode { opcode < 128 }
    requires funct7 { funct7 < 128 }
    requires funct3 { funct3 < 8 }
    requires rd { rd < 32 }
    requires rs1 { rs1 < 32 }
    requires rs2 { rs2 < 32 }
    ensures { result ≡ table.r_word opcode funct7 funct3 rd rs1 rs2 }
{
    let registers = 0x80 * rd + 0x8000 * u32::from(rs1) + 0x10_0000 * u32::from(rs2);
    opcode + 0x1000 * funct3 + 0x200_0000 * funct7 + registers
}

fn i_word(opcode: u32, funct3: u32, rd: u8, rs1: u8, field: u32) -> u32
    requires opcode { opcode < 128 }
    requires funct3 { funct3 < 8 }
    requires rd { rd < 32 }
    requires rs1 { rs1 < 32 }
    requires field { field < 4096 }
    ensures { result ≡ table.i_word opcode funct3 rd rs1 field }
{
    let registers = 0x80 * u32::from(rd) + 0x8000 * u32::from(rs1);
    opcode + 0x1000 * funct3 + registers + 0x10_0000 * field
}

fn s_word(opcode: u32, funct3: u32, rs1: u8, rs2: u8, imm: i64) -> u32
    requires opcode { opcode < 128 }
    requires funct3 { funct3 < 8 }
    requires rs1 { rs1 < 32 }
    requires rs2 { rs2 < 32 }
    ensures { result ≡ table.s_word opcode funct3 rs1 rs2 imm }
{
    r_word(
        opcode,
        field(imm, 5, 12),
        funct3,
        field(imm, 0, 5),
        rs1,
        rs2,
    )
}

fn b_word(opcode: u32, funct3: u32, rs1: u8, rs2: u8, imm: i64) -> u32
    requires opcode { opcode < 128 }
    requires funct3 { funct3 < 8 }
    requires rs1 { rs1 < 32 }
    requires rs2 { rs2 < 32 }
    ensures { result ≡ table.b_word opcode funct3 rs1 rs2 imm }
{
    let high = field(imm, 5, 11) + 0x40 * field(imm, 12, 13);
    let low = field(imm, 11, 12) + 2 * field(imm, 1, 5);
    r_word(opcode, high, funct3, low, rs1, rs2)
}

fn u_word(opcode: u32, rd: u8, imm: i64) -> u32
    requires opcode { opcode < 128 }
    requires rd { rd < 32 }
    ensures { result ≡ table.u_word opcode rd imm }
{
    opcode + 0x80 * u32::from(rd) + 0x1000 * field(imm, 12, 32)
}

fn j_word(opcode: u32, rd: u8, imm: i64) -> u32
    requires opcode { opcode < 128 }
    requires rd { rd < 32 }
    ensures { result ≡ table.j_word opcode rd imm }
{
    let low = 0x20_0000 * field(imm, 1, 11) + 0x10_0000 * field(imm, 11, 12);
    let high = 0x1000 * field(imm, 12, 20) + 0x8000_0000 * field(imm, 20, 21);
    opcode + 0x80 * u32::from(rd) + low + high
}
