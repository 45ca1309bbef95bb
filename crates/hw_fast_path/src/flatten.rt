// The flat instructions of words.

ghost use Rattle.std.specs.Prelude.{◌≡◌, ◌<◌, ℕ, ℤ, pos, IsTrue, Some};
ghost use Rattle.std.specs.Option.{ForSome};
ghost use Rattle.spec_processor.specs.Encoding.{fits};
ghost use Rattle.spec_processor.specs.Instructions.{instruction_of};
ghost use Rattle.spec_processor.specs.declared.instruction.Instr.TheVariants as Instr;
ghost use Rattle.hw_fast_path.specs.MicroOp.{flat_instr, number, order_number, width, width_values, acquires, releases};

use crate::micro_op::{ACQUIRE_UNIT, MicroOp, RELEASE_UNIT, WIDTH_VALUES};
use crate::micro_op_kind::MicroOpKind;
use rv64_decode::{
    AmoOp, BranchOp, CsrOp, Instr, LoadOp, Op32Op, OpImm32Op, OpImmOp, OpOp, StoreOp, decode,
};

// The operation of a branch.
#[tactic(auto, unfolding(crate::specs::MicroOp::flat_instr))]
fn branch(op: BranchOp) -> MicroOpKind
    ensures { (rd rs1 rs2 : ℕ) → (imm : ℤ) → flat_instr result rd rs1 rs2 imm ≡ Some (Instr.Branch op rs1 rs2 imm) }
{
    match op {
        BranchOp::Beq => MicroOpKind::Beq,
        BranchOp::Bne => MicroOpKind::Bne,
        BranchOp::Blt => MicroOpKind::Blt,
        BranchOp::Bge => MicroOpKind::Bge,
        BranchOp::Bltu => MicroOpKind::Bltu,
        BranchOp::Bgeu => MicroOpKind::Bgeu,
    }
}

// The operation of a load.
#[tactic(auto, unfolding(crate::specs::MicroOp::flat_instr))]
fn load(op: LoadOp) -> MicroOpKind
    ensures { (rd rs1 rs2 : ℕ) → (imm : ℤ) → flat_instr result rd rs1 rs2 imm ≡ Some (Instr.Load op rd rs1 imm) }
{
    match op {
        LoadOp::Lb => MicroOpKind::Lb,
        LoadOp::Lh => MicroOpKind::Lh,
        LoadOp::Lw => MicroOpKind::Lw,
        LoadOp::Ld => MicroOpKind::Ld,
        LoadOp::Lbu => MicroOpKind::Lbu,
        LoadOp::Lhu => MicroOpKind::Lhu,
        LoadOp::Lwu => MicroOpKind::Lwu,
    }
}

// The operation of a store.
#[tactic(auto, unfolding(crate::specs::MicroOp::flat_instr))]
fn store(op: StoreOp) -> MicroOpKind
    ensures { (rd rs1 rs2 : ℕ) → (imm : ℤ) → flat_instr result rd rs1 rs2 imm ≡ Some (Instr.Store op rs1 rs2 imm) }
{
    match op {
        StoreOp::Sb => MicroOpKind::Sb,
        StoreOp::Sh => MicroOpKind::Sh,
        StoreOp::Sw => MicroOpKind::Sw,
        StoreOp::Sd => MicroOpKind::Sd,
    }
}

// The operation of a computation on a register and an immediate.
#[tactic(auto, unfolding(crate::specs::MicroOp::flat_instr))]
fn op_imm(op: OpImmOp) -> MicroOpKind
    ensures { (rd rs1 rs2 : ℕ) → (imm : ℤ) → flat_instr result rd rs1 rs2 imm ≡ Some (Instr.OpImm op rd rs1 imm rs2) }
{
    match op {
        OpImmOp::Addi => MicroOpKind::Addi,
        OpImmOp::Slti => MicroOpKind::Slti,
        OpImmOp::Sltiu => MicroOpKind::Sltiu,
        OpImmOp::Xori => MicroOpKind::Xori,
        OpImmOp::Ori => MicroOpKind::Ori,
        OpImmOp::Andi => MicroOpKind::Andi,
        OpImmOp::Slli => MicroOpKind::Slli,
        OpImmOp::Srli => MicroOpKind::Srli,
        OpImmOp::Srai => MicroOpKind::Srai,
    }
}

// The operation of one on the low 32 bits of a register and an immediate.
#[tactic(auto, unfolding(crate::specs::MicroOp::flat_instr))]
fn op_imm_32(op: OpImm32Op) -> MicroOpKind
    ensures { (rd rs1 rs2 : ℕ) → (imm : ℤ) → flat_instr result rd rs1 rs2 imm ≡ Some (Instr.OpImm32 op rd rs1 imm rs2) }
{
    match op {
        OpImm32Op::Addiw => MicroOpKind::Addiw,
        OpImm32Op::Slliw => MicroOpKind::Slliw,
        OpImm32Op::Srliw => MicroOpKind::Srliw,
        OpImm32Op::Sraiw => MicroOpKind::Sraiw,
    }
}

// The operation of a computation on two registers.
#[tactic(auto, unfolding(crate::specs::MicroOp::flat_instr))]
fn op(op: OpOp) -> MicroOpKind
    ensures { (rd rs1 rs2 : ℕ) → (imm : ℤ) → flat_instr result rd rs1 rs2 imm ≡ Some (Instr.Op op rd rs1 rs2) }
{
    match op {
        OpOp::Add => MicroOpKind::Add,
        OpOp::Sll => MicroOpKind::Sll,
        OpOp::Slt => MicroOpKind::Slt,
        OpOp::Sltu => MicroOpKind::Sltu,
        OpOp::Xor => MicroOpKind::Xor,
        OpOp::Srl => MicroOpKind::Srl,
        OpOp::Or => MicroOpKind::Or,
        OpOp::And => MicroOpKind::And,
        OpOp::Sub => MicroOpKind::Sub,
        OpOp::Sra => MicroOpKind::Sra,
        OpOp::Mul => MicroOpKind::Mul,
        OpOp::Mulh => MicroOpKind::Mulh,
        OpOp::Mulhsu => MicroOpKind::Mulhsu,
        OpOp::Mulhu => MicroOpKind::Mulhu,
        OpOp::Div => MicroOpKind::Div,
        OpOp::Divu => MicroOpKind::Divu,
        OpOp::Rem => MicroOpKind::Rem,
        OpOp::Remu => MicroOpKind::Remu,
    }
}

// The operation of one on the low 32 bits of two registers.
#[tactic(auto, unfolding(crate::specs::MicroOp::flat_instr))]
fn op_32(op: Op32Op) -> MicroOpKind
    ensures { (rd rs1 rs2 : ℕ) → (imm : ℤ) → flat_instr result rd rs1 rs2 imm ≡ Some (Instr.Op32 op rd rs1 rs2) }
{
    match op {
        Op32Op::Addw => MicroOpKind::Addw,
        Op32Op::Sllw => MicroOpKind::Sllw,
        Op32Op::Srlw => MicroOpKind::Srlw,
        Op32Op::Subw => MicroOpKind::Subw,
        Op32Op::Sraw => MicroOpKind::Sraw,
        Op32Op::Mulw => MicroOpKind::Mulw,
        Op32Op::Divw => MicroOpKind::Divw,
        Op32Op::Divuw => MicroOpKind::Divuw,
        Op32Op::Remw => MicroOpKind::Remw,
        Op32Op::Remuw => MicroOpKind::Remuw,
    }
}

// The operation of an access to a register of the system.
#[tactic(auto, unfolding(crate::specs::MicroOp::flat_instr))]
fn csr(op: CsrOp) -> MicroOpKind
    ensures { (rd rs1 rs2 : ℕ) → (imm : ℤ) → flat_instr result rd rs1 rs2 imm ≡ Some (Instr.Csr op rd rs1 (number imm)) }
{
    match op {
        CsrOp::Csrrw => MicroOpKind::Csrrw,
        CsrOp::Csrrs => MicroOpKind::Csrrs,
        CsrOp::Csrrc => MicroOpKind::Csrrc,
        CsrOp::Csrrwi => MicroOpKind::Csrrwi,
        CsrOp::Csrrsi => MicroOpKind::Csrrsi,
        CsrOp::Csrrci => MicroOpKind::Csrrci,
    }
}

// The operation of an atomic operation on memory.
#[tactic(auto, unfolding(crate::specs::MicroOp::flat_instr))]
fn amo(op: AmoOp) -> MicroOpKind
    ensures { (rd rs1 rs2 : ℕ) → (imm : ℤ) → flat_instr result rd rs1 rs2 imm ≡ Some (Instr.Amo op rd rs1 rs2 (width imm) (acquires imm) (releases imm)) }
{
    match op {
        AmoOp::Amoswap => MicroOpKind::Amoswap,
        AmoOp::Amoadd => MicroOpKind::Amoadd,
        AmoOp::Amoxor => MicroOpKind::Amoxor,
        AmoOp::Amoand => MicroOpKind::Amoand,
        AmoOp::Amoor => MicroOpKind::Amoor,
        AmoOp::Amomin => MicroOpKind::Amomin,
        AmoOp::Amomax => MicroOpKind::Amomax,
        AmoOp::Amominu => MicroOpKind::Amominu,
        AmoOp::Amomaxu => MicroOpKind::Amomaxu,
    }
}

// A word in a flat form of its instruction.
fn form(word: u32, op: MicroOpKind, rd: u8, rs1: u8, rs2: u8, imm: i64) -> MicroOp
    requires decodes { flat_instr op rd rs1 rs2 imm ≡ instruction_of word }
    requires fields { ForSome (instruction_of word) (λ i. IsTrue (fits i)) }
    ensures { result.word ≡ word }
{
    MicroOp {
        imm,
        word,
        op,
        rd,
        rs1,
        rs2,
    }
}

// A word with another instruction, or without one.
#[tactic(auto, unfolding(crate::specs::MicroOp::flat_instr))]
fn other(word: u32) -> MicroOp
    ensures { result.word ≡ word }
{
    MicroOp {
        imm: 0,
        word,
        op: MicroOpKind::Other,
        rd: 0,
        rs1: 0,
        rs2: 0,
    }
}

// An access to a register of the system, whose number stands in the place of an immediate.
#[tactic(auto, using(crate::proofs::Flats::number_of))]
fn access(word: u32, op: CsrOp, rd: u8, rs1: u8, number: u16) -> MicroOp
    requires decodes { instruction_of word ≡ Some (Instr.Csr op rd rs1 number) }
    requires fields { ForSome (instruction_of word) (λ i. IsTrue (fits i)) }
    ensures { result.word ≡ word }
{
    form(word, csr(op), rd, rs1, 0, i64::from(number))
}

// What an atomic operation has besides its registers: its width in bytes, and its acquire and release bits.
#[derive(Clone, Copy, Drop)]
struct Ordered {
    width: u8,
    aq: bool,
    rl: bool,
}

impl Ordered {
    // Width and bits in the place of an immediate.
    fn pack(self) -> i64
        requires { self.width < width_values }
        ensures { result ≡ pos (order_number self.width self.aq self.rl) }
    {
        let acquire = if self.aq { ACQUIRE_UNIT } else { 0 };
        let release = if self.rl { RELEASE_UNIT } else { 0 };
        i64::from(self.width + (acquire + release))
    }
}

// An atomic operation.
#[tactic(auto, using(crate::proofs::Flats::width_of, crate::proofs::Flats::acquires_of, crate::proofs::Flats::releases_of))]
fn operation(word: u32, op: AmoOp, rd: u8, rs1: u8, rs2: u8, ordered: Ordered) -> MicroOp
    requires decodes { instruction_of word ≡ Some (Instr.Amo op rd rs1 rs2 ordered.width ordered.aq ordered.rl) }
    requires fields { ForSome (instruction_of word) (λ i. IsTrue (fits i)) }
    requires width { ordered.width < width_values }
    ensures { result.word ≡ word }
{
    form(word, amo(op), rd, rs1, rs2, ordered.pack())
}

// The flat form of a word whose instruction computes on registers. What isn't carried out in a row has none of its own.
#[tactic(auto, unfolding(crate::specs::MicroOp::flat_instr))]
fn computation(word: u32, instr: Instr) -> MicroOp
    requires decodes { instruction_of word ≡ Some instr }
    requires fields { ForSome (instruction_of word) (λ i. IsTrue (fits i)) }
    ensures { result.word ≡ word }
{
    match instr {
        Instr::OpImm {
            op,
            rd,
            rs1,
            imm,
            shamt,
        } => form(word, op_imm(op), rd, rs1, shamt, imm),
        Instr::OpImm32 {
            op,
            rd,
            rs1,
            imm,
            shamt,
        } => form(word, op_imm_32(op), rd, rs1, shamt, imm),
        Instr::Op {
            op: code,
            rd,
            rs1,
            rs2,
        } => form(word, op(code), rd, rs1, rs2, 0),
        Instr::Op32 { op, rd, rs1, rs2 } => form(word, op_32(op), rd, rs1, rs2, 0),
        _ => other(word),
    }
}

// The flat form of a word whose instruction reaches memory or a register of the system.
#[tactic(auto, unfolding(crate::specs::MicroOp::flat_instr))]
fn request(word: u32, instr: Instr) -> MicroOp
    requires decodes { instruction_of word ≡ Some instr }
    requires fields { ForSome (instruction_of word) (λ i. IsTrue (fits i)) }
    ensures { result.word ≡ word }
{
    match instr {
        Instr::Load { op, rd, rs1, imm } => form(word, load(op), rd, rs1, 0, imm),
        Instr::Store { op, rs1, rs2, imm } => form(word, store(op), 0, rs1, rs2, imm),
        Instr::Csr { op, rd, rs1, csr } => access(word, op, rd, rs1, csr),
        Instr::Amo {
            op,
            rd,
            rs1,
            rs2,
            width,
            aq,
            rl,
        } if width < WIDTH_VALUES => operation(word, op, rd, rs1, rs2, Ordered { width, aq, rl }),
        _ => computation(word, instr),
    }
}

// The flat form of a word's instruction.
#[tactic(auto, unfolding(crate::specs::MicroOp::flat_instr))]
fn flat_of(word: u32, instr: Instr) -> MicroOp
    requires decodes { instruction_of word ≡ Some instr }
    requires fields { ForSome (instruction_of word) (λ i. IsTrue (fits i)) }
    ensures { result.word ≡ word }
{
    match instr {
        Instr::Lui { rd, imm } => form(word, MicroOpKind::Lui, rd, 0, 0, imm),
        Instr::Auipc { rd, imm } => form(word, MicroOpKind::Auipc, rd, 0, 0, imm),
        Instr::Jal { rd, imm } => form(word, MicroOpKind::Jal, rd, 0, 0, imm),
        Instr::Jalr { rd, rs1, imm } => form(word, MicroOpKind::Jalr, rd, rs1, 0, imm),
        Instr::Branch { op, rs1, rs2, imm } => form(word, branch(op), 0, rs1, rs2, imm),
        Instr::Fence => form(word, MicroOpKind::Fence, 0, 0, 0, 0),
        Instr::FenceI => form(word, MicroOpKind::FenceI, 0, 0, 0, 0),
        Instr::Wfi => form(word, MicroOpKind::Wfi, 0, 0, 0, 0),
        Instr::SfenceVma { rs1, rs2 } => form(word, MicroOpKind::SfenceVma, 0, rs1, rs2, 0),
        _ => request(word, instr),
    }
}

/// The flat form of a word.
pub(crate) fn flatten(word: u32) -> MicroOp
    ensures { result.word ≡ word }
{
    match decode(word) {
        Some(instr) => flat_of(word, instr),
        None => other(word),
    }
}
