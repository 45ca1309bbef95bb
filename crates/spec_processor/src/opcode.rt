// The major opcodes, the lowest seven bits of an instruction's word. Unprivileged manual, "RV32/64G Instruction Set
// Listings": the base opcode map.

/// Loads.
pub const LOAD_OPCODE: u32 = 0x03;

/// Fences.
pub const MISC_MEM_OPCODE: u32 = 0x0F;

/// Computations with an immediate.
pub const OP_IMM_OPCODE: u32 = 0x13;

pub const AUIPC_OPCODE: u32 = 0x17;

/// Computations of 32 bits with an immediate.
pub const OP_IMM_32_OPCODE: u32 = 0x1B;

/// Stores.
pub const STORE_OPCODE: u32 = 0x23;

/// Atomic operations.
pub const AMO_OPCODE: u32 = 0x2F;

/// Computations.
pub const OP_OPCODE: u32 = 0x33;

pub const LUI_OPCODE: u32 = 0x37;

/// Computations of 32 bits.
pub const OP_32_OPCODE: u32 = 0x3B;

pub const BRANCH_OPCODE: u32 = 0x63;

pub const JALR_OPCODE: u32 = 0x67;

pub const JAL_OPCODE: u32 = 0x6F;

/// Calls, returns, registers, fences of translations and accesses under the guest's translation.
pub const SYSTEM_OPCODE: u32 = 0x73;
