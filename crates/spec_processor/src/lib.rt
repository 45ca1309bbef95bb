//! The processor's data: instructions, registers, causes, translation. In `specs/` stand the definitions that restate the
//! RISC-V manuals.
#![tactic(auto)]

mod access;
mod bits;
mod cached;
mod cause;
mod csr;
mod effect;
mod exit;
mod hregs;
mod instruction;
mod interrupt;
mod lines;
mod memory;
mod mode;
mod opcode;
mod outcome;
mod pte_bits;
mod registers;
mod translation;

pub use access::Access;
pub use bits::{has_bit, with_bits};
pub use cached::CacheLine;
pub use cause::Cause;
pub use csr::{Csr, CsrFault};
pub use effect::Effect;
pub use exit::{Exit, ExitCause};
pub use hregs::HRegs;
pub use instruction::{
    AmoOp, BranchOp, CsrOp, EBREAK, ECALL, HyperOp, INSTRUCTION_BYTES, Instr, LoadOp, Op32Op,
    OpImm32Op, OpImmOp, OpOp, SRET, StoreOp, WFI,
};
pub use interrupt::{EXTERNAL_NUMBER, Interrupt, SOFTWARE_NUMBER, TIMER_NUMBER};
pub use lines::Lines;
pub use memory::{
    ENTRY_BYTES, ENTRY_WIDTH, PAGE_BYTES, PAGE_SIZE, RAM_BASE, RESERVED_BYTES, TABLE_ENTRIES,
    TABLE_LEVELS, is_in_ram, page_of, ram_offset,
};
pub use mode::Mode;
pub use opcode::{
    AMO_OPCODE, AUIPC_OPCODE, BRANCH_OPCODE, JAL_OPCODE, JALR_OPCODE, LOAD_OPCODE, LUI_OPCODE,
    MISC_MEM_OPCODE, OP_32_OPCODE, OP_IMM_32_OPCODE, OP_IMM_OPCODE, OP_OPCODE, STORE_OPCODE,
    SYSTEM_OPCODE,
};
pub use outcome::{Exception, Outcome, Wrote};
pub use pte_bits::PteBits;
pub use registers::{A0, A1, A2, A3, A6, A7, REGISTERS, S0, S1, T0, T1, T2, T3, T4, X0};
pub use translation::{
    BARE, Fault, GUEST_ADDRESS_BITS, GuestFault, HTVAL_UNIT, INDEX_BITS, PAGE_BITS,
    PAGE_NUMBER_SHIFT, Place, ROOT_MODE_SHIFT, ROOT_PAGE_BITS, SIGN_BIT, SV39, SV39X4,
};
