// Decoded instructions. The fields' values are those of the instruction table in `specs/Instructions.antt`.

/// A conditional branch.
#[derive(Clone, Copy, Debug, Drop)]
pub enum BranchOp {
    Beq,
    Bne,
    Blt,
    Bge,
    Bltu,
    Bgeu,
}

/// A load, by its width; the names with U zero-extend.
#[derive(Clone, Copy, Debug, Drop)]
pub enum LoadOp {
    Lb,
    Lh,
    Lw,
    Ld,
    Lbu,
    Lhu,
    Lwu,
}

/// A store, by its width.
#[derive(Clone, Copy, Debug, Drop)]
pub enum StoreOp {
    Sb,
    Sh,
    Sw,
    Sd,
}

/// A computation on a register and an immediate.
#[derive(Clone, Copy, Debug, Drop)]
pub enum OpImmOp {
    Addi,
    Slti,
    Sltiu,
    Xori,
    Ori,
    Andi,
    Slli,
    Srli,
    Srai,
}

/// A computation on the low 32 bits of a register and an immediate.
#[derive(Clone, Copy, Debug, Drop)]
pub enum OpImm32Op {
    Addiw,
    Slliw,
    Srliw,
    Sraiw,
}

/// A computation on two registers.
#[derive(Clone, Copy, Debug, Drop)]
pub enum OpOp {
    Add,
    Sll,
    Slt,
    Sltu,
    Xor,
    Srl,
    Or,
    And,
    Sub,
    Sra,
    Mul,
    Mulh,
    Mulhsu,
    Mulhu,
    Div,
    Divu,
    Rem,
    Remu,
}

/// A computation on the low 32 bits of two registers.
#[derive(Clone, Copy, Debug, Drop)]
pub enum Op32Op {
    Addw,
    Sllw,
    Srlw,
    Subw,
    Sraw,
    Mulw,
    Divw,
    Divuw,
    Remw,
    Remuw,
}

/// An access to a control and status register; the names with I take an immediate.
#[derive(Clone, Copy, Debug, Drop)]
pub enum CsrOp {
    Csrrw,
    Csrrs,
    Csrrc,
    Csrrwi,
    Csrrsi,
    Csrrci,
}

/// An atomic memory operation.
#[derive(Clone, Copy, Debug, Drop)]
pub enum AmoOp {
    Amoswap,
    Amoadd,
    Amoxor,
    Amoand,
    Amoor,
    Amomin,
    Amomax,
    Amominu,
    Amomaxu,
}

/// A hypervisor instruction: a load or a store through the guest's translation, or a fence.
#[derive(Clone, Copy, Debug, Drop)]
pub enum HyperOp {
    HlvB,
    HlvBu,
    HlvH,
    HlvHu,
    HlvxHu,
    HlvW,
    HlvWu,
    HlvxWu,
    HlvD,
    HsvB,
    HsvH,
    HsvW,
    HsvD,
    HfenceVvma,
    HfenceGvma,
}

/// The bytes of an instruction. Unprivileged manual, "Base Instruction-Length Encoding".
pub const INSTRUCTION_BYTES: u64 = 4;

/// The word of `ecall`. Unprivileged manual, "RV32/64G Instruction Set Listings".
pub const ECALL: u32 = 0x0000_0073;

/// The word of `ebreak`.
pub const EBREAK: u32 = 0x0010_0073;

/// The word of `sret`. Privileged manual, "RISC-V Privileged Instruction Set Listings".
pub const SRET: u32 = 0x1020_0073;

/// The word of `wfi`.
pub const WFI: u32 = 0x1050_0073;

/// An instruction. Immediates are sign-extended, register numbers are below 32, widths are 4 or 8 bytes. A shift
/// by an immediate has `imm` 0, and the other computations have `shamt` 0. A register access with an immediate keeps
/// it in `rs1`. In `Hyper` a field that the row fixes is 0.
#[derive(Clone, Copy, Drop)]
pub enum Instr {
    Lui {
        rd: u8,
        imm: i64,
    },
    Auipc {
        rd: u8,
        imm: i64,
    },
    Jal {
        rd: u8,
        imm: i64,
    },
    Jalr {
        rd: u8,
        rs1: u8,
        imm: i64,
    },
    Branch {
        op: BranchOp,
        rs1: u8,
        rs2: u8,
        imm: i64,
    },
    Load {
        op: LoadOp,
        rd: u8,
        rs1: u8,
        imm: i64,
    },
    Store {
        op: StoreOp,
        rs1: u8,
        rs2: u8,
        imm: i64,
    },
    OpImm {
        op: OpImmOp,
        rd: u8,
        rs1: u8,
        imm: i64,
        shamt: u8,
    },
    OpImm32 {
        op: OpImm32Op,
        rd: u8,
        rs1: u8,
        imm: i64,
        shamt: u8,
    },
    Op {
        op: OpOp,
        rd: u8,
        rs1: u8,
        rs2: u8,
    },
    Op32 {
        op: Op32Op,
        rd: u8,
        rs1: u8,
        rs2: u8,
    },
    Fence,
    FenceI,
    Ecall,
    Ebreak,
    Sret,
    Wfi,
    SfenceVma {
        rs1: u8,
        rs2: u8,
    },
    Csr {
        op: CsrOp,
        rd: u8,
        rs1: u8,
        csr: u16,
    },
    Lr {
        rd: u8,
        rs1: u8,
        width: u8,
        aq: bool,
        rl: bool,
    },
    Sc {
        rd: u8,
        rs1: u8,
        rs2: u8,
        width: u8,
        aq: bool,
        rl: bool,
    },
    Amo {
        op: AmoOp,
        rd: u8,
        rs1: u8,
        rs2: u8,
        width: u8,
        aq: bool,
        rl: bool,
    },
    Hyper {
        op: HyperOp,
        rd: u8,
        rs1: u8,
        rs2: u8,
    },
}
