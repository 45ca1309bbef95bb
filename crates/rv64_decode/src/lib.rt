//! Words to instructions, by the instruction table.
#![tactic(auto)]

mod fields;
mod forms;
mod integer;
mod memory;
mod system;

ghost use Rattle.std.specs.Prelude.{◌≡◌, IfSome, IsTrue};
ghost use Rattle.spec_processor.specs.Encoding.{fits};
ghost use Rattle.spec_processor.specs.Instructions.{instruction_of};

use fields::opcode;
use integer::{branch, jalr, op, op_32, op_imm, op_imm_32};
use memory::{atomic, fence, load, store};
use spec_processor::{
    AMO_OPCODE, AUIPC_OPCODE, BRANCH_OPCODE, JAL_OPCODE, JALR_OPCODE, LOAD_OPCODE, LUI_OPCODE,
    MISC_MEM_OPCODE, OP_32_OPCODE, OP_IMM_32_OPCODE, OP_IMM_OPCODE, OP_OPCODE, STORE_OPCODE,
    SYSTEM_OPCODE,
};
pub use spec_processor::{
    AmoOp, BranchOp, CsrOp, HyperOp, Instr, LoadOp, Op32Op, OpImm32Op, OpImmOp, OpOp, StoreOp,
};
use system::system;

/// The instruction that a word encodes. None exactly where no row of the instruction table has the word.
pub fn decode(word: u32) -> Option<Instr>
    ensures instruction { result ≡ instruction_of word }
    ensures fields { IfSome result (λ instr. IsTrue (fits instr)) }
{
    by_opcode(word)
}

fn by_opcode(word: u32) -> Option<Instr>
    ensures { result ≡ instruction_of word }
{
    match opcode(word) {
        LUI_OPCODE => Some(forms::lui(word)),
        AUIPC_OPCODE => Some(forms::auipc(word)),
        JAL_OPCODE => Some(forms::jal(word)),
        JALR_OPCODE => jalr(word),
        BRANCH_OPCODE => branch(word),
        LOAD_OPCODE => load(word),
        STORE_OPCODE => store(word),
        OP_IMM_OPCODE => op_imm(word),
        OP_IMM_32_OPCODE => op_imm_32(word),
        OP_OPCODE => op(word),
        OP_32_OPCODE => op_32(word),
        MISC_MEM_OPCODE => fence(word),
        AMO_OPCODE => atomic(word),
        SYSTEM_OPCODE => system(word),
        _ => None,
    }
}
