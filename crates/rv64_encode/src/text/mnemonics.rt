// The mnemonics of instructions, and the names of registers.

ghost use Rattle.std.specs.Prelude.{◌≡◌, map, slice_get};
ghost use Rattle.rv64_encode.specs.Mnemonics as spec;

use spec_processor::{
    AmoOp, BranchOp, Csr, CsrOp, HyperOp, LoadOp, Op32Op, OpImm32Op, OpImmOp, OpOp, StoreOp,
};

pub(crate) fn branch_name(op: BranchOp) -> &'static str
    ensures { result.now ≡ spec.branch_name op }
{
    match op {
        BranchOp::Beq => "beq",
        BranchOp::Bne => "bne",
        BranchOp::Blt => "blt",
        BranchOp::Bge => "bge",
        BranchOp::Bltu => "bltu",
        BranchOp::Bgeu => "bgeu",
    }
}

pub(crate) fn load_name(op: LoadOp) -> &'static str
    ensures { result.now ≡ spec.load_name op }
{
    match op {
        LoadOp::Lb => "lb",
        LoadOp::Lh => "lh",
        LoadOp::Lw => "lw",
        LoadOp::Ld => "ld",
        LoadOp::Lbu => "lbu",
        LoadOp::Lhu => "lhu",
        LoadOp::Lwu => "lwu",
    }
}

pub(crate) fn store_name(op: StoreOp) -> &'static str
    ensures { result.now ≡ spec.store_name op }
{
    match op {
        StoreOp::Sb => "sb",
        StoreOp::Sh => "sh",
        StoreOp::Sw => "sw",
        StoreOp::Sd => "sd",
    }
}

pub(crate) fn op_imm_name(op: OpImmOp) -> &'static str
    ensures { result.now ≡ spec.op_imm_name op }
{
    match op {
        OpImmOp::Addi => "addi",
        OpImmOp::Slti => "slti",
        OpImmOp::Sltiu => "sltiu",
        OpImmOp::Xori => "xori",
        OpImmOp::Ori => "ori",
        OpImmOp::Andi => "andi",
        OpImmOp::Slli => "slli",
        OpImmOp::Srli => "srli",
        OpImmOp::Srai => "srai",
    }
}

pub(crate) fn op_imm_32_name(op: OpImm32Op) -> &'static str
    ensures { result.now ≡ spec.op_imm_32_name op }
{
    match op {
        OpImm32Op::Addiw => "addiw",
        OpImm32Op::Slliw => "slliw",
        OpImm32Op::Srliw => "srliw",
        OpImm32Op::Sraiw => "sraiw",
    }
}

pub(crate) fn op_name(op: OpOp) -> &'static str
    ensures { result.now ≡ spec.op_name op }
{
    match op {
        OpOp::Add => "add",
        OpOp::Sll => "sll",
        OpOp::Slt => "slt",
        OpOp::Sltu => "sltu",
        OpOp::Xor => "xor",
        OpOp::Srl => "srl",
        OpOp::Or => "or",
        OpOp::And => "and",
        OpOp::Sub => "sub",
        OpOp::Sra => "sra",
        OpOp::Mul => "mul",
        OpOp::Mulh => "mulh",
        OpOp::Mulhsu => "mulhsu",
        OpOp::Mulhu => "mulhu",
        OpOp::Div => "div",
        OpOp::Divu => "divu",
        OpOp::Rem => "rem",
        OpOp::Remu => "remu",
    }
}

pub(crate) fn op_32_name(op: Op32Op) -> &'static str
    ensures { result.now ≡ spec.op_32_name op }
{
    match op {
        Op32Op::Addw => "addw",
        Op32Op::Sllw => "sllw",
        Op32Op::Srlw => "srlw",
        Op32Op::Subw => "subw",
        Op32Op::Sraw => "sraw",
        Op32Op::Mulw => "mulw",
        Op32Op::Divw => "divw",
        Op32Op::Divuw => "divuw",
        Op32Op::Remw => "remw",
        Op32Op::Remuw => "remuw",
    }
}

pub(crate) fn csr_op_name(op: CsrOp) -> &'static str
    ensures { result.now ≡ spec.csr_op_name op }
{
    match op {
        CsrOp::Csrrw => "csrrw",
        CsrOp::Csrrs => "csrrs",
        CsrOp::Csrrc => "csrrc",
        CsrOp::Csrrwi => "csrrwi",
        CsrOp::Csrrsi => "csrrsi",
        CsrOp::Csrrci => "csrrci",
    }
}

pub(crate) fn amo_name(op: AmoOp) -> &'static str
    ensures { result.now ≡ spec.amo_name op }
{
    match op {
        AmoOp::Amoswap => "amoswap",
        AmoOp::Amoadd => "amoadd",
        AmoOp::Amoxor => "amoxor",
        AmoOp::Amoand => "amoand",
        AmoOp::Amoor => "amoor",
        AmoOp::Amomin => "amomin",
        AmoOp::Amomax => "amomax",
        AmoOp::Amominu => "amominu",
        AmoOp::Amomaxu => "amomaxu",
    }
}

pub(crate) fn hyper_name(op: HyperOp) -> &'static str
    ensures { result.now ≡ spec.hyper_name op }
{
    match op {
        HyperOp::HlvB => "hlv.b",
        HyperOp::HlvBu => "hlv.bu",
        HyperOp::HlvH => "hlv.h",
        HyperOp::HlvHu => "hlv.hu",
        HyperOp::HlvxHu => "hlvx.hu",
        HyperOp::HlvW => "hlv.w",
        HyperOp::HlvWu => "hlv.wu",
        HyperOp::HlvxWu => "hlvx.wu",
        HyperOp::HlvD => "hlv.d",
        HyperOp::HsvB => "hsv.b",
        HyperOp::HsvH => "hsv.h",
        HyperOp::HsvW => "hsv.w",
        HyperOp::HsvD => "hsv.d",
        HyperOp::HfenceVvma => "hfence.vvma",
        HyperOp::HfenceGvma => "hfence.gvma",
    }
}

pub(crate) fn width_suffix(width: u8) -> &'static str
    ensures { result.now ≡ spec.width_suffix width }
{
    if width == 4 { ".w" } else { ".d" }
}

pub(crate) fn order_suffix(aq: bool, rl: bool) -> &'static str
    ensures { result.now ≡ spec.order_suffix aq rl }
{
    match (aq, rl) {
        (false, false) => "",
        (true, false) => ".aq",
        (false, true) => ".rl",
        (true, true) => ".aqrl",
    }
}

/// The names of the registers in the order of their numbers.
const REGISTER_NAMES: [&str; 32] = [
    "zero", "ra", "sp", "gp", "tp", "t0", "t1", "t2", "s0", "s1", "a0", "a1", "a2", "a3", "a4",
    "a5", "a6", "a7", "s2", "s3", "s4", "s5", "s6", "s7", "s8", "s9", "s10", "s11", "t3", "t4",
    "t5", "t6",
];

#[tactic(auto, using(crate::proofs::Tables::slice_get_map))]
fn name_among(names: &[&'static str], number: u8) -> &'static str
    ensures { result.now ≡ spec.or_question (slice_get (map (λ name. name.now) names.now) number) }
{
    match names.get(number as usize).copied() {
        Some(name) => name,
        None => "?",
    }
}

/// The name of a register of the calling convention.
#[tactic(auto, unfolding(crate::specs::Mnemonics::register_name))]
pub(crate) fn register_name(number: u8) -> &'static str
    ensures { result.now ≡ spec.register_name number }
{
    name_among(&REGISTER_NAMES, number)
}

/// The name of a supervisor register, or of the time.
pub(crate) fn csr_name(csr: Csr) -> &'static str
    ensures { result.now ≡ spec.csr_name csr }
{
    match csr {
        Csr::Sstatus => "sstatus",
        Csr::Sie => "sie",
        Csr::Stvec => "stvec",
        Csr::Scounteren => "scounteren",
        Csr::Sscratch => "sscratch",
        Csr::Sepc => "sepc",
        Csr::Scause => "scause",
        Csr::Stval => "stval",
        Csr::Sip => "sip",
        Csr::Satp => "satp",
        Csr::Time => "time",
    }
}
